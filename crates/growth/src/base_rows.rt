// The rows of a base graph, and what the parity columns give before any row is chosen, in closed form: the rows that share one, and the
// edges of a row.
ghost use Rattle.std.specs.Prelude.{◌≡◌, ℕ, ◌<◌, ◌≤◌};
ghost use Rattle.growth.specs.Rows.{has};
ghost use Rattle.growth.specs.Search.{ends, beside, parity_edges};

use crate::rows::RowSet;

#[derive(Clone, Copy)]
pub struct BaseRows {
    pub m_b: usize,
    pub ghost sizes: { (3 ≤ m_b) × (m_b ≤ 64) },
}

impl BaseRows {
    // The rows of parity column 0.
    fn ends(&self) -> RowSet
        ensures { (r : ℕ) → has result r ≡ ends self.now.m_b r }
    {
        RowSet::empty()
            .with(0)
            .with(self.m_b - 1)
            .with(self.m_b / 2)
    }

    // Row r is of parity column 0.
    #[tactic(auto, unfolding(crate::specs::Search::ends))]
    fn is_end(&self, r: usize) -> bool
        ensures { result ≡ ends self.now.m_b r }
    {
        r == 0 || r == self.m_b - 1 || r == self.m_b / 2
    }

    // The rows that share a parity column with row q: each later one has two rows that follow each other.
    pub fn beside(&self, q: usize) -> RowSet
        requires { q < self.now.m_b }
        ensures { (r : ℕ) → r < self.now.m_b → has result r ≡ beside self.now.m_b q r }
    {
        let rows = RowSet::between(q.saturating_sub(1), (q + 2).min(self.m_b));
        if self.is_end(q) {
            rows.or(self.ends())
        } else {
            rows
        }
    }

    // Row m_b / 2 is in parity column 0 besides two others; each other row is in two.
    #[tactic(auto, unfolding(crate::specs::Search::parity_edges))]
    pub fn parity_edges(&self, r: usize) -> u8
        ensures { result ≡ parity_edges self.now.m_b r }
    {
        if r == self.m_b / 2 { 3 } else { 2 }
    }
}
