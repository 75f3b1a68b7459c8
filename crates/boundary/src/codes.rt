// What the boundary asks of a code besides: the getters as calls that refuse.
ghost use Rattle.std.specs.Prelude.{◌≡◌, ◌∷◌, [], length};
ghost use Rattle.refusals.specs.Outcome.{after, outcome};
ghost use Rattle.ldpc.specs.Getters.{rate_told};
ghost use Rattle.boundary.specs.Answers.{work_told, put_told};

use ldpc::Code;
use refusals::Refusal;

// How many numbers of work memory a decode needs.
#[tactic(auto, unfolding(crate::specs::Answers::work_told, ldpc::specs::Choice::if_made))]
pub fn work_needed(c: Code) -> Result<usize, Refusal>
    ensures { outcome result ≡ work_told c }
{
    Ok(c.valid()?.work_needed())
}

// The effective rate, in the one number lent.
#[tactic(auto, unfolding(crate::specs::Answers::put_told, ldpc::specs::Choice::if_made))]
pub fn put_rate(c: Code, rate: &mut [f32]) -> Result<(), Refusal>
    ensures result_value { outcome result ≡ put_told c (length rate.old) }
    ensures rate_after { rate.new ≡ after (put_told c (length rate.old)) (λ _. rate_told c ∷ []) rate.old }
{
    c.valid()?;
    let given = rate.len();
    let Some(rate) = rate.as_mut_array() else {
        // a length, and no number of a refusal
        return Err(Refusal::Output { given, wanted: 1 });
    };
    *rate = [c.effective_rate()];
    Ok(())
}
