// Grants: iterations until the decisions meet every check, or the grant is spent.
ghost use Rattle.std.specs.Prelude.{◌≡◌};
ghost use Rattle.refusals.specs.Outcome.{outcome};
ghost use Rattle.decoder.specs.Calls.{grant_told, grant_written};

use crate::record::Decode;
use refusals::Refusal;
use runs::Reach;

impl Decode {
    // Iterates until converged or g iterations are done.
    #[tactic(auto, unfolding(crate::specs::Calls::grant_told, crate::specs::Calls::grant_written, crate::specs::Calls::if_work, crate::specs::Calls::if_sum, crate::specs::Decoding::record_of, crate::specs::Decoding::progress_of, runs::specs::Runs::reach_of, runs::specs::Runs::reached_in, ldpc::specs::Choice::if_made))]
    pub fn grant(self, g: u16, work: &mut [f32]) -> Result<Decode, Refusal>
        ensures result_value { outcome result ≡ grant_told self g work.old }
        ensures work_after { work.new ≡ grant_written self g work.old }
    {
        let code = self.code.valid()?;
        refusals::work(work.len(), code.work_needed())?;
        refusals::iterations(usize::from(self.iterations) + usize::from(g))?;
        let from = Reach {
            iterations: self.iterations,
            converged: self.converged,
        };
        let reach = runs::go_on(code, from, g, work);
        Ok(Decode {
            code: self.code,
            iterations: reach.iterations,
            converged: reach.converged,
        })
    }
}
