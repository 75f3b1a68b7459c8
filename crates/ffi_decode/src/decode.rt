// The one call: the code, a start, one grant of the limit, and a read.
ghost use Rattle.std.specs.Prelude.{◌≡◌, length};
ghost use Rattle.boundary.specs.Answers.{result_numbers, number_told, answered};
ghost use Rattle.boundary.specs.Calls.{decode_at, decoded_memory, decoded_word};

use boundary::{OUTPUT, tell};

#[tactic(auto, unfolding(boundary::specs::Calls::decode_at, boundary::specs::Calls::decoded_memory, boundary::specs::Calls::decoded_word))]
#[unsafe(no_mangle)]
pub extern "C" fn fuyegbo_decode(
    rate: usize,
    n_tx: usize,
    rx: &[f32],
    limit: u16,
    work: &mut [f32],
    out: &mut [u8],
    answer: &mut [usize],
) -> usize
    ensures value { result ≡ number_told (decode_at rate n_tx rx.now limit work.old (length out.old) (length answer.old)) }
    ensures work_after { work.new ≡ decoded_memory rate n_tx rx.now limit work.old (length out.old) (length answer.old) }
    ensures out_after { out.new ≡ decoded_word rate n_tx rx.now limit work.old out.old (length answer.old) }
    ensures answer_after { answer.new ≡ answered result_numbers (decode_at rate n_tx rx.now limit work.old (length out.old) (length answer.old)) answer.old }
{
    let Some(answer) = answer.as_mut_array() else {
        return OUTPUT;
    };
    tell(decoder::decode(rate, n_tx, rx, limit, work, out), answer)
}
