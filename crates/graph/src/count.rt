// The count of four-cycles.
ghost use Rattle.std.specs.Prelude.{◌≡◌};
ghost use Rattle.refusals.specs.Outcome.{outcome};
ghost use Rattle.graph.specs.Calls.{cycles_told};

use crate::tests::{lifted, sound};
use columns::Columns;
use refusals::Refusal;

// The four-cycles among k_b information columns at lift z. Rows and shifts are two slices, as C lends them.
#[tactic(auto, unfolding(crate::specs::Calls::cycles_told))]
pub fn four_cycles(
    n_b: usize,
    k_b: usize,
    rows: &[u8],
    shifts: &[u16],
    z: usize,
) -> Result<usize, Refusal>
    ensures { outcome result ≡ cycles_told n_b k_b rows.now shifts.now z }
{
    lifted(n_b, k_b, z)?;
    refusals::input(rows.len(), 3 * k_b)?;
    refusals::input(shifts.len(), 3 * k_b)?;
    sound(n_b - k_b, rows)?;
    let columns = Columns {
        count: k_b,
        rows,
        shifts,
    };
    Ok(cycles::count_cycles(&columns, z))
}
