// At most g iterations more; the record is brought up to date.
ghost use Rattle.std.specs.Prelude.{◌≡◌, length};
ghost use Rattle.refusals.specs.Outcome.{outcome, after};
ghost use Rattle.decoder.specs.Calls.{grant_told};
ghost use Rattle.boundary.specs.Answers.{decode_numbers, decode_in, none, number_told, answered, if_decode};
ghost use Rattle.boundary.specs.Calls.{grant_at, granted_memory};

use boundary::{OUTPUT, decode_numbers, decode_of, tell};
use decoder::Decode;
use refusals::Refusal;

#[tactic(auto, unfolding(decoder::specs::Calls::grant_written, boundary::specs::Calls::granted_memory))]
fn grant(fields: &mut [usize], g: u16, work: &mut [f32]) -> Result<Decode, Refusal>
    ensures result_value { outcome result ≡ if_decode fields.old (λ d. grant_told d g work.old) }
    ensures fields_after { fields.new ≡ after (if_decode fields.old (λ d. grant_told d g work.old)) decode_numbers fields.old }
    ensures work_after { work.new ≡ after (if_decode fields.old (λ d. grant_told d g work.old)) (λ _. granted_memory (decode_in fields.old) g work.old) work.old }
{
    let decode = decode_of(fields)?.grant(g, work)?;
    fields.copy_from_slice(&decode_numbers(decode));
    Ok(decode)
}

#[tactic(auto, unfolding(boundary::specs::Calls::grant_at))]
#[unsafe(no_mangle)]
pub extern "C" fn fuyegbo_grant(
    decode: &mut [usize],
    g: u16,
    work: &mut [f32],
    answer: &mut [usize],
) -> usize
    ensures value { result ≡ number_told (grant_at decode.old g work.old (length answer.old)) }
    ensures decode_after { decode.new ≡ after (grant_at decode.old g work.old (length answer.old)) decode_numbers decode.old }
    ensures work_after { work.new ≡ after (grant_at decode.old g work.old (length answer.old)) (λ _. granted_memory (decode_in decode.old) g work.old) work.old }
    ensures answer_after { answer.new ≡ answered none (grant_at decode.old g work.old (length answer.old)) answer.old }
{
    let Some(answer) = answer.as_mut_array() else {
        return OUTPUT;
    };
    tell(grant(decode, g, work), answer)
}
