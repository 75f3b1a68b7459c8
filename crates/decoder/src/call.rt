// The one call: Choice, Start, one grant of the limit, and Read.
ghost use Rattle.std.specs.Prelude.{◌≡◌, length};
ghost use Rattle.refusals.specs.Outcome.{outcome};
ghost use Rattle.decoder.specs.Calls.{decoded_by, memory_by, written_by, decode_told, decode_memory, decode_written};

use crate::record::DecodeResult;
use ldpc::{Code, ValidCode};
use refusals::Refusal;

// The one call once its code is made.
#[tactic(auto, unfolding(crate::specs::Calls::decoded_by, crate::specs::Calls::memory_by, crate::specs::Calls::written_by, crate::specs::Calls::if_work, crate::specs::Decoding::result_of, runs::specs::Runs::reach_of, refusals::specs::Outcome::if_length))]
fn decode_by(
    code: ValidCode,
    rx: &[f32],
    limit: u16,
    work: &mut [f32],
    out: &mut [u8],
) -> Result<DecodeResult, Refusal>
    ensures result_value { outcome result ≡ decoded_by code.code rx.now limit work.old (length out.old) }
    ensures work_after { work.new ≡ memory_by code.code rx.now limit work.old (length out.old) }
    ensures out_after { out.new ≡ written_by code.code rx.now limit work.old out.old }
{
    refusals::input(rx.len(), code.code.n_tx)?;
    refusals::output(out.len(), code.code.n_tx)?;
    refusals::work(work.len(), code.work_needed())?;
    let reach = runs::decode_unbroken(code, rx, limit, work);
    Ok(DecodeResult {
        iterations: reach.iterations,
        converged: reach.converged,
        clean: word::read(code, reach.converged, work, out),
    })
}

// Decodes n_tx readings at a rate in at most `limit` iterations.
#[tactic(auto, unfolding(crate::specs::Calls::decode_told, crate::specs::Calls::decode_memory, crate::specs::Calls::decode_written))]
pub fn decode(
    rate: usize,
    n_tx: usize,
    rx: &[f32],
    limit: u16,
    work: &mut [f32],
    out: &mut [u8],
) -> Result<DecodeResult, Refusal>
    ensures result_value { outcome result ≡ decode_told rate n_tx rx.now limit work.old (length out.old) }
    ensures work_after { work.new ≡ decode_memory rate n_tx rx.now limit work.old (length out.old) }
    ensures out_after { out.new ≡ decode_written rate n_tx rx.now limit work.old out.old }
{
    let choice = Code::new(rate, n_tx);
    let Ok(code) = choice else {
        return Err(choice.unwrap_err());
    };
    decode_by(ValidCode { code }, rx, limit, work, out)
}
