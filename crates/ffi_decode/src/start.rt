// Starts a decode: its record, and the work memory.
ghost use Rattle.std.specs.Prelude.{◌≡◌, length};
ghost use Rattle.refusals.specs.Outcome.{outcome, and_then, exact, after};
ghost use Rattle.channel.specs.Channel.{start_memory};
ghost use Rattle.decoder.specs.Calls.{start_told};
ghost use Rattle.boundary.specs.Answers.{code_in, decode_numbers, none, number_told, answered, if_code};
ghost use Rattle.boundary.specs.Calls.{start_at};

use boundary::{DECODE, OUTPUT, code_of, decode_numbers, tell};
use decoder::Decode;
use refusals::Refusal;

#[tactic(auto, unfolding(decoder::specs::Calls::start_written))]
fn start(
    code: &[usize],
    rx: &[f32],
    work: &mut [f32],
    fields: &mut [usize],
) -> Result<Decode, Refusal>
    ensures result_value { outcome result ≡ if_code code.now (λ c. and_then (exact 9 (length fields.old) 8) (λ _. start_told c rx.now (length work.old))) }
    ensures work_after { work.new ≡ after (if_code code.now (λ c. and_then (exact 9 (length fields.old) 8) (λ _. start_told c rx.now (length work.old)))) (λ _. start_memory (code_in code.now) rx.now work.old) work.old }
    ensures fields_after { fields.new ≡ after (if_code code.now (λ c. and_then (exact 9 (length fields.old) 8) (λ _. start_told c rx.now (length work.old)))) decode_numbers fields.old }
{
    let code = code_of(code)?;
    let given = fields.len();
    let Some(fields) = fields.as_mut_array() else {
        return Err(Refusal::Output {
            given,
            wanted: DECODE,
        });
    };
    let decode = Decode::start(code, rx, work)?;
    *fields = decode_numbers(decode);
    Ok(decode)
}

#[tactic(auto, unfolding(boundary::specs::Calls::start_at))]
#[unsafe(no_mangle)]
pub extern "C" fn fuyegbo_start(
    code: &[usize],
    rx: &[f32],
    work: &mut [f32],
    decode: &mut [usize],
    answer: &mut [usize],
) -> usize
    ensures value { result ≡ number_told (start_at code.now rx.now (length work.old) (length decode.old) (length answer.old)) }
    ensures work_after { work.new ≡ after (start_at code.now rx.now (length work.old) (length decode.old) (length answer.old)) (λ _. start_memory (code_in code.now) rx.now work.old) work.old }
    ensures decode_after { decode.new ≡ after (start_at code.now rx.now (length work.old) (length decode.old) (length answer.old)) decode_numbers decode.old }
    ensures answer_after { answer.new ≡ answered none (start_at code.now rx.now (length work.old) (length decode.old) (length answer.old)) answer.old }
{
    let Some(answer) = answer.as_mut_array() else {
        return OUTPUT;
    };
    tell(start(code, rx, work, decode), answer)
}
