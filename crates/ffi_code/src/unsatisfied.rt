// How many checks a word does not meet.
ghost use Rattle.std.specs.Prelude.{◌≡◌, length};
ghost use Rattle.refusals.specs.Outcome.{outcome};
ghost use Rattle.coder.specs.Calls.{unsatisfied_told};
ghost use Rattle.boundary.specs.Answers.{one, number_told, answered, if_code};
ghost use Rattle.boundary.specs.Calls.{unsatisfied_at};

use boundary::{OUTPUT, code_of, tell};
use refusals::Refusal;

fn unsatisfied(code: &[usize], word: &[u8]) -> Result<usize, Refusal>
    ensures { outcome result ≡ if_code code.now (λ c. unsatisfied_told c word.now) }
{
    coder::unsatisfied(code_of(code)?, word)
}

#[tactic(auto, unfolding(boundary::specs::Calls::unsatisfied_at))]
#[unsafe(no_mangle)]
pub extern "C" fn fuyegbo_unsatisfied(code: &[usize], word: &[u8], answer: &mut [usize]) -> usize
    ensures value { result ≡ number_told (unsatisfied_at code.now word.now (length answer.old)) }
    ensures answer_after { answer.new ≡ answered one (unsatisfied_at code.now word.now (length answer.old)) answer.old }
{
    let Some(answer) = answer.as_mut_array() else {
        return OUTPUT;
    };
    tell(unsatisfied(code, word), answer)
}
