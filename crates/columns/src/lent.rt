// A graph's information columns, lent, with what is known of their lengths.
ghost use Rattle.std.specs.Prelude.{◌≡◌, ◌+◌, ◌*◌, ◌<◌, ◌≤◌, length, slice_index, [], ◌∷◌};
ghost use Rattle.laws.specs.Columns.{entry_of, has_row, shift_on};

/// Information columns: three rows and as many shifts each.
#[derive(Clone, Copy, Debug)]
pub struct Columns<'a> {
    pub count: usize,
    pub rows: &'a [u8],
    pub shifts: &'a [u16],
    pub ghost few: { count ≤ 61 },
    pub ghost three_rows: { length rows.now ≡ 3 * count },
    pub ghost three_shifts: { length shifts.now ≡ 3 * count },
}

impl<'a> Columns<'a> {
    /// The three rows of column c.
    pub fn rows_of(&self, c: usize) -> [u8; 3]
        requires { c < self.now.count }
        ensures { result ≡ entry_of self.now.rows.now c 0 ∷ entry_of self.now.rows.now c 1 ∷ entry_of self.now.rows.now c 2 ∷ [] }
    {
        [self.rows[3 * c], self.rows[3 * c + 1], self.rows[3 * c + 2]]
    }

    /// Whether column c has an edge on a row.
    pub fn has_row(&self, c: usize, row: u8) -> bool
        requires { c < self.now.count }
        ensures { result ≡ has_row self.now.rows.now c row }
    {
        crate::has_row(self.rows, c, row)
    }

    /// The shift of column c's edge on a row.
    pub fn shift_on(&self, c: usize, row: u8) -> usize
        requires { c < self.now.count }
        ensures { (result ≡ shift_on self.now.rows.now self.now.shifts.now c row) × (result < 65536) }
    {
        crate::shift_on(self.rows, self.shifts, c, row)
    }
}
