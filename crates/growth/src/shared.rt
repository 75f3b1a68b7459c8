// Which rows share a column: a set of rows for each of 64 rows. `join` asks for rows below 64: a type for such a row would be made and
// taken apart at each call.
ghost use Rattle.std.specs.Prelude.{◌≡◌, ◌&&◌, ◌||◌, ℕ, ◌<◌, length};
ghost use Rattle.laws.specs.Range.{some};
ghost use Rattle.growth.specs.Rows.{has};
ghost use Rattle.growth.specs.Search.{meets, paired};

use crate::rows::RowSet;

// Not `Copy`, as it is large.
#[derive(Drop)]
pub struct Shared {
    pub near: [RowSet; 64],
    pub ghost wide: { length near ≡ 64 },
}

impl Shared {
    // Of the unreached rows, those that share a column with a row of the frontier.
    pub fn reached_from(&self, frontier: RowSet, unreached: RowSet) -> RowSet
        ensures { (r : ℕ)
            → has result r ≡ (has unreached r && some (λ q. has frontier q && meets self.now.near q r) 64) }
    {
        let mut left = frontier;
        let mut gathered = RowSet::empty();
        while let Some(q) = left.pop() {
            gathered = gathered.or(self.near[q]);
        }
        unreached.and(gathered)
    }

    // Rows q and r share a column from now on.
    pub fn join(&mut self, q: usize, r: usize)
        requires { (q < 64) × (r < 64) }
        ensures { (s t : ℕ)
            → meets self.new.near s t ≡ (meets self.old.near s t || paired q r s t) }
    {
        self.near[q] = self.near[q].with(r);
        self.near[r] = self.near[r].with(q);
    }
}
