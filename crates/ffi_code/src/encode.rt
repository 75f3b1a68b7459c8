// Encodes k information bits into n_tx transmitted ones.
ghost use Rattle.std.specs.Prelude.{◌≡◌, length};
ghost use Rattle.refusals.specs.Outcome.{outcome, after};
ghost use Rattle.coder.specs.Calls.{encode_told, encoding_of};
ghost use Rattle.boundary.specs.Answers.{code_in, none, number_told, answered, if_code};
ghost use Rattle.boundary.specs.Calls.{encode_at};

use boundary::{OUTPUT, code_of, tell};
use refusals::Refusal;

#[tactic(auto, unfolding(coder::specs::Calls::encode_written))]
fn encode(code: &[usize], info: &[u8], out: &mut [u8]) -> Result<(), Refusal>
    ensures result_value { outcome result ≡ if_code code.now (λ c. encode_told c info.now (length out.old)) }
    ensures out_after { out.new ≡ after (if_code code.now (λ c. encode_told c info.now (length out.old))) (λ _. encoding_of (code_in code.now) info.now) out.old }
{
    coder::encode(code_of(code)?, info, out)
}

#[tactic(auto, unfolding(boundary::specs::Calls::encode_at))]
#[unsafe(no_mangle)]
pub extern "C" fn fuyegbo_encode(
    code: &[usize],
    info: &[u8],
    out: &mut [u8],
    answer: &mut [usize],
) -> usize
    ensures value { result ≡ number_told (encode_at code.now info.now (length out.old) (length answer.old)) }
    ensures out_after { out.new ≡ after (encode_at code.now info.now (length out.old) (length answer.old)) (λ _. encoding_of (code_in code.now) info.now) out.old }
    ensures answer_after { answer.new ≡ answered none (encode_at code.now info.now (length out.old) (length answer.old)) answer.old }
{
    let Some(answer) = answer.as_mut_array() else {
        return OUTPUT;
    };
    tell(encode(code, info, out), answer)
}
