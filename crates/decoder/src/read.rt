// Reading: the decisions in transmitted order.
ghost use Rattle.std.specs.Prelude.{◌≡◌, length};
ghost use Rattle.refusals.specs.Outcome.{outcome};
ghost use Rattle.decoder.specs.Calls.{read_told, read_written};

use crate::record::{Decode, DecodeResult};
use refusals::Refusal;

impl Decode {
    // Writes the n_tx decisions, and tells iterations, converged and clean.
    #[tactic(auto, unfolding(crate::specs::Calls::read_told, crate::specs::Calls::read_written, crate::specs::Calls::if_work, crate::specs::Decoding::result_of, crate::specs::Decoding::progress_of, ldpc::specs::Choice::if_made, refusals::specs::Outcome::if_length))]
    pub fn read(self, work: &[f32], out: &mut [u8]) -> Result<DecodeResult, Refusal>
        ensures result_value { outcome result ≡ read_told self work.now (length out.old) }
        ensures out_after { out.new ≡ read_written self work.now out.old }
    {
        let code = self.code.valid()?;
        refusals::output(out.len(), self.code.n_tx)?;
        refusals::work(work.len(), code.work_needed())?;
        Ok(DecodeResult {
            iterations: self.iterations,
            converged: self.converged,
            clean: word::read(code, self.converged, work, out),
        })
    }
}
