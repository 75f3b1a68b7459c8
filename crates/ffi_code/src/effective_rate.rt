// k / n_tx.
ghost use Rattle.std.specs.Prelude.{◌≡◌, ◌∷◌, [], length};
ghost use Rattle.refusals.specs.Outcome.{outcome, after};
ghost use Rattle.ldpc.specs.Getters.{rate_told};
ghost use Rattle.boundary.specs.Answers.{code_in, none, number_told, answered, if_code, put_told};
ghost use Rattle.boundary.specs.Calls.{rate_at};

use boundary::{OUTPUT, code_of, tell};
use refusals::Refusal;

fn effective_rate(code: &[usize], rate: &mut [f32]) -> Result<(), Refusal>
    ensures result_value { outcome result ≡ if_code code.now (λ c. put_told c (length rate.old)) }
    ensures rate_after { rate.new ≡ after (if_code code.now (λ c. put_told c (length rate.old))) (λ _. rate_told (code_in code.now) ∷ []) rate.old }
{
    boundary::put_rate(code_of(code)?, rate)
}

#[tactic(auto, unfolding(boundary::specs::Calls::rate_at))]
#[unsafe(no_mangle)]
pub extern "C" fn fuyegbo_effective_rate(
    code: &[usize],
    rate: &mut [f32],
    answer: &mut [usize],
) -> usize
    ensures value { result ≡ number_told (rate_at code.now (length rate.old) (length answer.old)) }
    ensures rate_after { rate.new ≡ after (rate_at code.now (length rate.old) (length answer.old)) (λ _. rate_told (code_in code.now) ∷ []) rate.old }
    ensures answer_after { answer.new ≡ answered none (rate_at code.now (length rate.old) (length answer.old)) answer.old }
{
    let Some(answer) = answer.as_mut_array() else {
        return OUTPUT;
    };
    tell(effective_rate(code, rate), answer)
}
