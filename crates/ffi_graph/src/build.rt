// A whole graph: rows and shifts.
ghost use Rattle.std.specs.Prelude.{◌≡◌, length};
ghost use Rattle.refusals.specs.Outcome.{after};
ghost use Rattle.graph.specs.Calls.{build_told, built_rows, built_shifts};
ghost use Rattle.boundary.specs.Answers.{none, number_told, answered, if_answer};

use boundary::{OUTPUT, tell};

#[tactic(auto, unfolding(graph::specs::Calls::rows_built, graph::specs::Calls::shifts_built))]
#[unsafe(no_mangle)]
pub extern "C" fn fuyegbo_build(
    n_b: usize,
    percent: usize,
    seed: u64,
    rows: &mut [u8],
    shifts: &mut [u16],
    answer: &mut [usize],
) -> usize
    ensures value { result ≡ number_told (if_answer (length answer.old) (build_told n_b percent (length rows.old) (length shifts.old))) }
    ensures rows_after { rows.new ≡ after (if_answer (length answer.old) (build_told n_b percent (length rows.old) (length shifts.old))) (λ _. built_rows n_b percent) rows.old }
    ensures shifts_after { shifts.new ≡ after (if_answer (length answer.old) (build_told n_b percent (length rows.old) (length shifts.old))) (λ _. built_shifts n_b percent seed) shifts.old }
    ensures answer_after { answer.new ≡ answered none (if_answer (length answer.old) (build_told n_b percent (length rows.old) (length shifts.old))) answer.old }
{
    let Some(answer) = answer.as_mut_array() else {
        return OUTPUT;
    };
    tell(graph::build(n_b, percent, seed, rows, shifts), answer)
}
