// The code for n_tx transmitted bits at a rate: its record.
ghost use Rattle.std.specs.Prelude.{◌≡◌, length};
ghost use Rattle.refusals.specs.Outcome.{outcome, and_then, exact, after};
ghost use Rattle.ldpc.specs.Choice.{chosen};
ghost use Rattle.boundary.specs.Answers.{code_numbers, none, number_told, answered};
ghost use Rattle.boundary.specs.Calls.{code_at};

use boundary::{CODE, OUTPUT, code_numbers, tell};
use ldpc::Code;
use refusals::Refusal;

fn choose(rate: usize, n_tx: usize, fields: &mut [usize]) -> Result<Code, Refusal>
    ensures result_value { outcome result ≡ and_then (exact 9 (length fields.old) 6) (λ _. chosen rate n_tx) }
    ensures fields_after { fields.new ≡ after (and_then (exact 9 (length fields.old) 6) (λ _. chosen rate n_tx)) code_numbers fields.old }
{
    let given = fields.len();
    let Some(fields) = fields.as_mut_array() else {
        return Err(Refusal::Output {
            given,
            wanted: CODE,
        });
    };
    let code = Code::new(rate, n_tx)?;
    *fields = code_numbers(code);
    Ok(code)
}

#[tactic(auto, unfolding(boundary::specs::Calls::code_at))]
#[unsafe(no_mangle)]
pub extern "C" fn fuyegbo_code(
    rate: usize,
    n_tx: usize,
    code: &mut [usize],
    answer: &mut [usize],
) -> usize
    ensures value { result ≡ number_told (code_at rate n_tx (length code.old) (length answer.old)) }
    ensures code_after { code.new ≡ after (code_at rate n_tx (length code.old) (length answer.old)) code_numbers code.old }
    ensures answer_after { answer.new ≡ answered none (code_at rate n_tx (length code.old) (length answer.old)) answer.old }
{
    let Some(answer) = answer.as_mut_array() else {
        return OUTPUT;
    };
    tell(choose(rate, n_tx, code), answer)
}
