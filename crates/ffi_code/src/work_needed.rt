// How many numbers of work memory a decode needs.
ghost use Rattle.std.specs.Prelude.{◌≡◌, length};
ghost use Rattle.refusals.specs.Outcome.{outcome};
ghost use Rattle.boundary.specs.Answers.{one, number_told, answered, if_code, work_told};
ghost use Rattle.boundary.specs.Calls.{work_at};

use boundary::{OUTPUT, code_of, tell};
use refusals::Refusal;

fn work_needed(code: &[usize]) -> Result<usize, Refusal>
    ensures { outcome result ≡ if_code code.now work_told }
{
    boundary::work_needed(code_of(code)?)
}

#[tactic(auto, unfolding(boundary::specs::Calls::work_at))]
#[unsafe(no_mangle)]
pub extern "C" fn fuyegbo_work_needed(code: &[usize], answer: &mut [usize]) -> usize
    ensures value { result ≡ number_told (work_at code.now (length answer.old)) }
    ensures answer_after { answer.new ≡ answered one (work_at code.now (length answer.old)) answer.old }
{
    let Some(answer) = answer.as_mut_array() else {
        return OUTPUT;
    };
    tell(work_needed(code), answer)
}
