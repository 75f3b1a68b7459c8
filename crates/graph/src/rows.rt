// Growth: the rows of information columns.
ghost use Rattle.std.specs.Prelude.{◌≡◌, length};
ghost use Rattle.refusals.specs.Outcome.{outcome};
ghost use Rattle.graph.specs.Calls.{peg_told, peg_written};

use crate::tests::shaped;
use refusals::Refusal;

// Writes the rows of k_b information columns, grown one edge after the other.
#[tactic(auto, unfolding(crate::specs::Calls::peg_told, crate::specs::Calls::peg_written))]
pub fn peg(n_b: usize, k_b: usize, rows: &mut [u8]) -> Result<(), Refusal>
    ensures result_value { outcome result ≡ peg_told n_b k_b (length rows.old) }
    ensures rows_after { rows.new ≡ peg_written n_b k_b rows.old }
{
    shaped(n_b, k_b)?;
    refusals::output(rows.len(), 3 * k_b)?;
    growth::grow(n_b - k_b, k_b, rows);
    Ok(())
}
