// The number of information columns for a rate.
ghost use Rattle.std.specs.Prelude.{◌≡◌, ◌≤◌, ◌+◌};
ghost use Rattle.laws.specs.Columns.{information_columns};
ghost use Rattle.refusals.specs.Outcome.{outcome};
ghost use Rattle.graph.specs.Calls.{columns_told};

use crate::tests::rated;
use refusals::Refusal;

// k_b of n_b base columns.
#[tactic(auto, unfolding(laws::specs::Columns::information_columns))]
pub fn columns_at(n_b: usize, percent: usize) -> usize
    requires { (4 ≤ n_b) × (n_b ≤ 64) × (percent ≤ 100) }
    ensures value { result ≡ information_columns n_b percent }
    ensures bounds { (1 ≤ result) × (result + 3 ≤ n_b) }
{
    (n_b * percent / 100).min(n_b - 3).max(1)
}

// k_b of n_b base columns at a rate in percent.
#[tactic(auto, unfolding(crate::specs::Calls::columns_told))]
pub fn information_columns(n_b: usize, percent: usize) -> Result<usize, Refusal>
    ensures { outcome result ≡ columns_told n_b percent }
{
    rated(n_b, percent)?;
    Ok(columns_at(n_b, percent))
}
