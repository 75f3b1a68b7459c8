// k_b of n_b base columns at a rate in percent.
ghost use Rattle.std.specs.Prelude.{◌≡◌, length};
ghost use Rattle.graph.specs.Calls.{columns_told};
ghost use Rattle.boundary.specs.Answers.{one, number_told, answered, if_answer};

use boundary::{OUTPUT, tell};

#[unsafe(no_mangle)]
pub extern "C" fn fuyegbo_information_columns(
    n_b: usize,
    percent: usize,
    answer: &mut [usize],
) -> usize
    ensures value { result ≡ number_told (if_answer (length answer.old) (columns_told n_b percent)) }
    ensures answer_after { answer.new ≡ answered one (if_answer (length answer.old) (columns_told n_b percent)) answer.old }
{
    let Some(answer) = answer.as_mut_array() else {
        return OUTPUT;
    };
    tell(graph::information_columns(n_b, percent), answer)
}
