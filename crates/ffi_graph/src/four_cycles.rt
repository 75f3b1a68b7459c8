// The four-cycles among the information columns.
ghost use Rattle.std.specs.Prelude.{◌≡◌, length};
ghost use Rattle.graph.specs.Calls.{cycles_told};
ghost use Rattle.boundary.specs.Answers.{one, number_told, answered, if_answer};

use boundary::{OUTPUT, tell};

#[unsafe(no_mangle)]
pub extern "C" fn fuyegbo_four_cycles(
    n_b: usize,
    k_b: usize,
    rows: &[u8],
    shifts: &[u16],
    z: usize,
    answer: &mut [usize],
) -> usize
    ensures value { result ≡ number_told (if_answer (length answer.old) (cycles_told n_b k_b rows.now shifts.now z)) }
    ensures answer_after { answer.new ≡ answered one (if_answer (length answer.old) (cycles_told n_b k_b rows.now shifts.now z)) answer.old }
{
    let Some(answer) = answer.as_mut_array() else {
        return OUTPUT;
    };
    tell(graph::four_cycles(n_b, k_b, rows, shifts, z), answer)
}
