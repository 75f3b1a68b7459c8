// What the choice of the next row goes by: the rows that share a column, and the edges of each row.
ghost use Rattle.std.specs.Prelude.{◌≡◌, false, ◌||◌, ℕ, ◌+◌, ◌*◌, ◌%◌, ◌<◌, ◌≤◌, length, get_or, set};
ghost use Rattle.columns.specs.Found.{below};
ghost use Rattle.laws.specs.Columns.{faulty};
ghost use Rattle.growth.specs.Search.{meets, beside, parity_edges, joined, chosen};

use crate::base_rows::BaseRows;
use crate::choice::pick;
use crate::rows::RowSet;
use crate::search::{farthest, rows_before};
use crate::shared::Shared;

// Not `Copy`, as it is large.
#[derive(Drop)]
pub struct Links {
    pub base: BaseRows,
    pub shared: Shared,
    pub degree: [u8; 64],
    pub ghost deep: { length degree ≡ 64 },
}

impl Links {
    // Of the parity columns alone.
    pub fn new(base: BaseRows) -> Links
        ensures rows { result.base.m_b ≡ base.m_b }
        ensures shared { (q r : ℕ) → q < base.m_b → r < base.m_b → meets result.shared.near q r ≡ beside base.m_b q r }
        ensures edges { (r : ℕ) → r < base.m_b → get_or result.degree r 0 ≡ parity_edges base.m_b r }
    {
        let mut near = [RowSet::empty(); 64];
        let mut degree = [0; 64];
        for q in 0..base.m_b {
            near[q] = base.beside(q);
            degree[q] = base.parity_edges(q);
        }
        Links {
            base,
            shared: Shared { near },
            degree,
        }
    }

    // The row for place p.
    pub fn next_row(&self, rows: &[u8], p: usize) -> Option<usize>
        requires { (p ≤ length rows.now) × ((j : ℕ) → j < p → faulty self.now.base.m_b rows.now j ≡ false) }
        ensures { result ≡ below self.now.base.m_b (chosen self.now.base.m_b self.now.shared.near self.now.degree rows.now p) }
    {
        let taken = rows_before(rows, p);
        pick(farthest(self.base, &self.shared, taken), &self.degree)
    }

    // Notes the row r of place p: it shares a column with the rows of that column so far, and has an edge more.
    pub fn join(&mut self, rows: &[u8], p: usize, r: usize)
        requires before { (p ≤ length rows.now) × ((j : ℕ) → j < p → get_or rows.now j 0 < 64) }
        requires row { (r < 64) × (get_or self.old.degree r 0 < 255) }
        ensures rows { self.new.base.m_b ≡ self.old.base.m_b }
        ensures shared { (q s : ℕ)
            → q < 64
            → s < 64
            → meets self.new.shared.near q s ≡ (meets self.old.shared.near q s || joined rows.now p (p % 3) r q s) }
        ensures edges { self.new.degree ≡ set self.old.degree r (get_or self.old.degree r 0 + 1) }
    {
        for q in &rows[3 * (p / 3)..p] {
            self.shared.join(usize::from(*q), r);
        }
        self.degree[r] += 1;
    }
}
