// The choice of shifts.
ghost use Rattle.std.specs.Prelude.{◌≡◌, length};
ghost use Rattle.refusals.specs.Outcome.{outcome};
ghost use Rattle.graph.specs.Calls.{shifts_told, shifts_written};

use crate::tests::{shaped, sound};
use refusals::Refusal;

// Writes shifts for the rows of k_b information columns. Rows and shifts are two slices, as C lends them.
#[tactic(auto, unfolding(crate::specs::Calls::shifts_told, crate::specs::Calls::shifts_written))]
pub fn assign_shifts(
    n_b: usize,
    k_b: usize,
    rows: &[u8],
    seed: u64,
    shifts: &mut [u16],
) -> Result<(), Refusal>
    ensures result_value { outcome result ≡ shifts_told n_b k_b rows.now (length shifts.old) }
    ensures shifts_after { shifts.new ≡ shifts_written n_b k_b rows.now seed shifts.old }
{
    shaped(n_b, k_b)?;
    refusals::input(rows.len(), 3 * k_b)?;
    refusals::output(shifts.len(), 3 * k_b)?;
    sound(n_b - k_b, rows)?;
    shifts::choose_shifts(k_b, rows, seed, shifts);
    Ok(())
}
