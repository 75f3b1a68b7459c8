// The shifts of the rows.
ghost use Rattle.std.specs.Prelude.{◌≡◌, ◌*◌, length};
ghost use Rattle.refusals.specs.Outcome.{after};
ghost use Rattle.shifts.specs.Shifts.{shifts_of};
ghost use Rattle.graph.specs.Calls.{shifts_told};
ghost use Rattle.boundary.specs.Answers.{none, number_told, answered, if_answer};

use boundary::{OUTPUT, tell};

#[tactic(auto, unfolding(graph::specs::Calls::shifts_written))]
#[unsafe(no_mangle)]
pub extern "C" fn fuyegbo_assign_shifts(
    n_b: usize,
    k_b: usize,
    rows: &[u8],
    seed: u64,
    shifts: &mut [u16],
    answer: &mut [usize],
) -> usize
    ensures value { result ≡ number_told (if_answer (length answer.old) (shifts_told n_b k_b rows.now (length shifts.old))) }
    ensures shifts_after { shifts.new ≡ after (if_answer (length answer.old) (shifts_told n_b k_b rows.now (length shifts.old))) (λ _. shifts_of rows.now seed (3 * k_b)) shifts.old }
    ensures answer_after { answer.new ≡ answered none (if_answer (length answer.old) (shifts_told n_b k_b rows.now (length shifts.old))) answer.old }
{
    let Some(answer) = answer.as_mut_array() else {
        return OUTPUT;
    };
    tell(graph::assign_shifts(n_b, k_b, rows, seed, shifts), answer)
}
