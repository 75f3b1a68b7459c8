// Progressive edge growth: the rows.
ghost use Rattle.std.specs.Prelude.{◌≡◌, ◌-◌, length};
ghost use Rattle.refusals.specs.Outcome.{after};
ghost use Rattle.growth.specs.Growth.{rows_of};
ghost use Rattle.graph.specs.Calls.{peg_told};
ghost use Rattle.boundary.specs.Answers.{none, number_told, answered, if_answer};

use boundary::{OUTPUT, tell};

#[tactic(auto, unfolding(graph::specs::Calls::peg_written))]
#[unsafe(no_mangle)]
pub extern "C" fn fuyegbo_peg(
    n_b: usize,
    k_b: usize,
    rows: &mut [u8],
    answer: &mut [usize],
) -> usize
    ensures value { result ≡ number_told (if_answer (length answer.old) (peg_told n_b k_b (length rows.old))) }
    ensures rows_after { rows.new ≡ after (if_answer (length answer.old) (peg_told n_b k_b (length rows.old))) (λ _. rows_of (n_b - k_b) k_b) rows.old }
    ensures answer_after { answer.new ≡ answered none (if_answer (length answer.old) (peg_told n_b k_b (length rows.old))) answer.old }
{
    let Some(answer) = answer.as_mut_array() else {
        return OUTPUT;
    };
    tell(graph::peg(n_b, k_b, rows), answer)
}
