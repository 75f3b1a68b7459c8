// The transmitted members of a check, and how many they are.
ghost use Rattle.std.specs.Prelude.{◌≡◌, ◌++◌, length, drop};
ghost use Rattle.refusals.specs.Outcome.{outcome, after};
ghost use Rattle.coder.specs.Calls.{listed, code_members};
ghost use Rattle.boundary.specs.Answers.{code_in, one, number_told, answered, if_code};
ghost use Rattle.boundary.specs.Calls.{members_at};

use boundary::{OUTPUT, code_of, tell};
use refusals::Refusal;

#[tactic(auto, unfolding(coder::specs::Calls::list_written))]
fn check_members(code: &[usize], check: usize, out: &mut [u32]) -> Result<usize, Refusal>
    ensures result_value { outcome result ≡ if_code code.now (λ c. listed c check (length out.old)) }
    ensures out_after { out.new ≡ after (if_code code.now (λ c. listed c check (length out.old))) (λ _. code_members (code_in code.now) check ++ drop (length (code_members (code_in code.now) check)) out.old) out.old }
{
    coder::check_members(code_of(code)?, check, out)
}

#[tactic(auto, unfolding(boundary::specs::Calls::members_at))]
#[unsafe(no_mangle)]
pub extern "C" fn fuyegbo_check_members(
    code: &[usize],
    check: usize,
    out: &mut [u32],
    answer: &mut [usize],
) -> usize
    ensures value { result ≡ number_told (members_at code.now check (length out.old) (length answer.old)) }
    ensures out_after { out.new ≡ after (members_at code.now check (length out.old) (length answer.old)) (λ _. code_members (code_in code.now) check ++ drop (length (code_members (code_in code.now) check)) out.old) out.old }
    ensures answer_after { answer.new ≡ answered one (members_at code.now check (length out.old) (length answer.old)) answer.old }
{
    let Some(answer) = answer.as_mut_array() else {
        return OUTPUT;
    };
    tell(check_members(code, check, out), answer)
}
