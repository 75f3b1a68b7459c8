// A set of rows, which are below 64: a word with a bit for each.
ghost use Rattle.std.specs.Prelude.{◌≡◌, false, not, ◌&&◌, ◌||◌, ℕ, ◌<◌, ◌≤◌, eqb, leb, ltb, MatchOption};
ghost use Rattle.growth.specs.Rows.{has, Lowest};

#[derive(Clone, Copy)]
pub struct RowSet {
    pub bits: u64,
}

impl RowSet {
    pub fn empty() -> RowSet
        ensures { (r : ℕ) → has result r ≡ false }
    {
        RowSet { bits: 0 }
    }

    // The rows `from` and on, below `to`. It goes by shifts, and none is by 64: so neither bound is past the end.
    pub fn between(from: usize, to: usize) -> RowSet
        requires { (from < 64) × (1 ≤ to) × (to ≤ 64) }
        ensures { (r : ℕ) → has result r ≡ (leb from r && ltb r to) }
    {
        RowSet {
            bits: (u64::MAX << from) & (u64::MAX >> (64 - to)),
        }
    }

    pub fn is_empty(self) -> bool
        ensures { result ≡ eqb self.bits 0 }
    {
        self.bits == 0
    }

    pub fn with(self, r: usize) -> RowSet
        requires { r < 64 }
        ensures { (s : ℕ) → has result s ≡ (has self s || eqb s r) }
    {
        RowSet {
            bits: self.bits | (1 << r),
        }
    }

    pub fn or(self, other: RowSet) -> RowSet
        ensures { (r : ℕ) → has result r ≡ (has self r || has other r) }
    {
        RowSet {
            bits: self.bits | other.bits,
        }
    }

    pub fn and(self, other: RowSet) -> RowSet
        ensures { (r : ℕ) → has result r ≡ (has self r && has other r) }
    {
        RowSet {
            bits: self.bits & other.bits,
        }
    }

    pub fn without(self, other: RowSet) -> RowSet
        ensures { (r : ℕ) → has result r ≡ (has self r && not (has other r)) }
    {
        RowSet {
            bits: self.bits & !other.bits,
        }
    }

    // Takes the lowest row out.
    pub fn pop(&mut self) -> Option<usize>
        ensures { MatchOption result ((r : ℕ) → has self.old r ≡ false) (λ r. Lowest self.old r self.new) }
    {
        if self.bits == 0 {
            return None;
        }
        let r = self.bits.trailing_zeros();
        self.bits &= !(1 << r);
        Some(r as usize)
    }
}
