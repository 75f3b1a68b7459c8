// The decided bits, with iterations, converged and clean.
ghost use Rattle.std.specs.Prelude.{◌≡◌, length};
ghost use Rattle.refusals.specs.Outcome.{outcome, after};
ghost use Rattle.word.specs.Word.{word_of};
ghost use Rattle.decoder.specs.Calls.{read_told};
ghost use Rattle.boundary.specs.Answers.{decode_in, result_numbers, number_told, answered, if_decode};
ghost use Rattle.boundary.specs.Calls.{read_at};

use boundary::{OUTPUT, decode_of, tell};
use decoder::DecodeResult;
use refusals::Refusal;

#[tactic(auto, unfolding(decoder::specs::Calls::read_written))]
fn read(decode: &[usize], work: &[f32], out: &mut [u8]) -> Result<DecodeResult, Refusal>
    ensures result_value { outcome result ≡ if_decode decode.now (λ d. read_told d work.now (length out.old)) }
    ensures out_after { out.new ≡ after (if_decode decode.now (λ d. read_told d work.now (length out.old))) (λ _. word_of (decode_in decode.now).code work.now) out.old }
{
    decode_of(decode)?.read(work, out)
}

#[tactic(auto, unfolding(boundary::specs::Calls::read_at))]
#[unsafe(no_mangle)]
pub extern "C" fn fuyegbo_read(
    decode: &[usize],
    work: &[f32],
    out: &mut [u8],
    answer: &mut [usize],
) -> usize
    ensures value { result ≡ number_told (read_at decode.now work.now (length out.old) (length answer.old)) }
    ensures out_after { out.new ≡ after (read_at decode.now work.now (length out.old) (length answer.old)) (λ _. word_of (decode_in decode.now).code work.now) out.old }
    ensures answer_after { answer.new ≡ answered result_numbers (read_at decode.now work.now (length out.old) (length answer.old)) answer.old }
{
    let Some(answer) = answer.as_mut_array() else {
        return OUTPUT;
    };
    tell(read(decode, work, out), answer)
}
