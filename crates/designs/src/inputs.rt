// The seed and the columns that the program computes.
ghost use Rattle.std.specs.Prelude.{◌≡◌, ◌<◌, ◌≤◌, length};
ghost use Rattle.laws.specs.Written.{tabulate};
ghost use Rattle.designs.specs.Inputs.{seed_of, some_row, row_at, shift_at};

// A seed from the bytes of a text.
#[tactic(auto, unfolding(crate::specs::Inputs::seed_of))]
pub fn seed_of(text: &[u8]) -> u64
    ensures { result ≡ seed_of text.now }
{
    text.iter().fold(
        0,
        |state: u64, x| shifts::next_state(state.wrapping_add(u64::from(*x))),
    )
}

// What the columns of a graph are computed from: its base rows and a seed.
#[derive(Clone, Copy, Debug)]
pub struct Computed {
    pub m_b: usize,
    pub seed: usize,
    pub ghost three_rows: { 3 ≤ m_b },
    pub ghost few_rows: { m_b ≤ 64 },
    pub ghost small_seed: { seed < 1000 },
}

impl Computed {
    #[tactic(auto, using(crate::proofs::Drawn::square), unfolding(crate::specs::Inputs::some_row))]
    fn some_row(self, c: usize) -> usize
        requires { c < 61 }
        ensures { result ≡ some_row self.m_b self.seed c }
    {
        (self.seed + c * c * 7 + c) % self.m_b
    }

    // The row at place p. It is below m_b, so `as` keeps it whole, and `try_from` would have an error that cannot come.
    #[tactic(auto, using(crate::proofs::Drawn::less), unfolding(crate::specs::Inputs::row_at, crate::specs::Inputs::some_row))]
    fn row_at(self, p: usize) -> u8
        requires { p < 183 }
        ensures { result ≡ row_at self.m_b self.seed p }
    {
        let m = self.m_b;
        let a = self.some_row(p / 3);
        let row = match p % 3 {
            0 => a,
            1 => (a + 1 + (self.seed * 3 + p / 3 * 5) % (m - 2)) % m,
            _ => (a + m - 1) % m,
        };
        row as u8
    }

    // The shift at place p. It is below 65536, so `as` keeps it whole in the same way.
    #[tactic(auto, using(crate::proofs::Drawn::square), unfolding(crate::specs::Inputs::shift_at))]
    fn shift_at(self, p: usize) -> u16
        requires { p < 183 }
        ensures { result ≡ shift_at self.seed p }
    {
        ((self.seed * 7919 + p * p * 31 + p * 104729) % 65536) as u16
    }

    // Fills the columns: two slices, as the calls of graph are lent them. By index, since of what is written through a zip nothing is
    // known.
    pub fn fill_columns(self, rows: &mut [u8], shifts: &mut [u16])
        requires { (length rows.old ≤ 183) × (length shifts.old ≡ length rows.old) }
        ensures rows_after { rows.new ≡ tabulate (row_at self.m_b self.seed) (length rows.old) }
        ensures shifts_after { shifts.new ≡ tabulate (shift_at self.seed) (length shifts.old) }
    {
        for p in 0..rows.len() {
            rows[p] = self.row_at(p);
            shifts[p] = self.shift_at(p);
        }
    }
}
