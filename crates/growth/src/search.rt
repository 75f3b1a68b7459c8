// A search over the rows, step after step: which of them are farthest from a column's rows so far.
ghost use Rattle.std.specs.Prelude.{◌≡◌, true, ◌&&◌, ℕ, ◌<◌, ◌≤◌, ltb, length, get_or};
ghost use Rattle.growth.specs.Rows.{has};
ghost use Rattle.growth.specs.Search.{meets, begun, farthest};

use crate::base_rows::BaseRows;
use crate::rows::RowSet;
use crate::shared::Shared;

// The rows of place p's column so far.
pub fn rows_before(rows: &[u8], p: usize) -> RowSet
    requires { (p ≤ length rows.now) × ((j : ℕ) → j < p → get_or rows.now j 0 < 64) }
    ensures { (r : ℕ) → has result r ≡ begun rows.now p r }
{
    let mut taken = RowSet::empty();
    for r in &rows[3 * (p / 3)..p] {
        taken = taken.with(usize::from(*r));
    }
    taken
}

// Of the rows that are not taken, those that the most steps lead to. The steps so far lead to no unreached row; one step more leads to
// the next. Where the next are none or all of the unreached rows, these are equally far, and farther than any other.
pub fn farthest(base: BaseRows, shared: &Shared, taken: RowSet) -> RowSet
    requires { (r : ℕ) → has taken r ≡ true → r < base.m_b }
    ensures { (r : ℕ)
        → has result r ≡ (ltb r base.m_b && farthest base.m_b (meets shared.now.near) (has taken) r) }
{
    let mut unreached = RowSet::between(0, base.m_b).without(taken);
    let mut next = shared.reached_from(taken, unreached);
    'steps: while !next.is_empty() && next.bits != unreached.bits {
        unreached = unreached.without(next);
        next = shared.reached_from(next, unreached);
    }
    unreached
}
