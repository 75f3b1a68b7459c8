// The choice of the next row.
ghost use Rattle.std.specs.Prelude.{◌≡◌, ◌<◌, length, get_or, IfSome};
ghost use Rattle.laws.specs.Range.{foremost};
ghost use Rattle.columns.specs.Found.{below};
ghost use Rattle.growth.specs.Rows.{has};
ghost use Rattle.growth.specs.Search.{fewer, leads_over};

use crate::rows::RowSet;

// Row r is to take the place of the best row so far: there is none yet, or row r has fewer edges.
fn takes_over(degree: &[u8], r: usize, best: Option<usize>) -> bool
    requires rows { r < length degree.now }
    requires best { IfSome best (λ q. q < length degree.now) }
    ensures { result ≡ leads_over (fewer (λ q. get_or degree.now q 0)) r best }
{
    match best {
        Some(q) => degree[r] < degree[q],
        None => true,
    }
}

// Of a set of rows the one with the fewest edges, then the lowest.
pub fn pick(rows: RowSet, degree: &[u8]) -> Option<usize>
    requires { length degree.now ≡ 64 }
    ensures { result ≡ below 64 (foremost (has rows) (fewer (λ q. get_or degree.now q 0)) 64) }
{
    let mut left = rows;
    let mut best = None;
    while let Some(r) = left.pop() {
        if takes_over(degree, r, best) {
            best = Some(r);
        }
    }
    best
}
