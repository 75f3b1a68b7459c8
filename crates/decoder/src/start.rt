// Start: the readings become the channel, the totals and the messages to the checks.
ghost use Rattle.std.specs.Prelude.{◌≡◌, length};
ghost use Rattle.refusals.specs.Outcome.{outcome};
ghost use Rattle.decoder.specs.Calls.{start_told, start_written};

use crate::record::Decode;
use ldpc::Code;
use refusals::Refusal;

impl Decode {
    // Starts a decode of n_tx readings. Every f32 is a reading.
    #[tactic(auto, unfolding(crate::specs::Calls::start_told, crate::specs::Calls::start_written, crate::specs::Calls::if_work, ldpc::specs::Choice::if_made, refusals::specs::Outcome::if_length))]
    pub fn start(c: Code, rx: &[f32], work: &mut [f32]) -> Result<Decode, Refusal>
        ensures result_value { outcome result ≡ start_told c rx.now (length work.old) }
        ensures work_after { work.new ≡ start_written c rx.now work.old }
    {
        let code = c.valid()?;
        refusals::input(rx.len(), c.n_tx)?;
        refusals::work(work.len(), code.work_needed())?;
        channel::begin(code, rx, work);
        Ok(Decode {
            code: c,
            iterations: 0,
            converged: false,
        })
    }
}
