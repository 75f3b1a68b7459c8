// A whole graph: growth, then the choice of shifts. Its rows need no test, as growth gives three different ones in each column.
ghost use Rattle.std.specs.Prelude.{◌≡◌, length};
ghost use Rattle.refusals.specs.Outcome.{outcome};
ghost use Rattle.graph.specs.Calls.{build_told, rows_built, shifts_built};

use crate::rate::columns_at;
use crate::tests::rated;
use refusals::Refusal;

// Writes the rows and the shifts of a graph of n_b base columns at a rate in percent. They are two slices, as C lends them.
#[tactic(auto, unfolding(crate::specs::Calls::build_told, crate::specs::Calls::rows_built, crate::specs::Calls::shifts_built, crate::specs::Calls::built_rows, crate::specs::Calls::built_shifts))]
pub fn build(
    n_b: usize,
    percent: usize,
    seed: u64,
    rows: &mut [u8],
    shifts: &mut [u16],
) -> Result<(), Refusal>
    ensures result_value { outcome result ≡ build_told n_b percent (length rows.old) (length shifts.old) }
    ensures rows_after { rows.new ≡ rows_built n_b percent rows.old (length shifts.old) }
    ensures shifts_after { shifts.new ≡ shifts_built n_b percent seed (length rows.old) shifts.old }
{
    rated(n_b, percent)?;
    let k_b = columns_at(n_b, percent);
    refusals::output(rows.len(), 3 * k_b)?;
    refusals::output(shifts.len(), 3 * k_b)?;
    growth::grow(n_b - k_b, k_b, rows);
    shifts::choose_shifts(k_b, rows, seed, shifts);
    Ok(())
}
