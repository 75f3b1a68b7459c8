// What a start writes into work memory: the channel, the totals and the messages.
#![tactic(auto)]

mod spread;

ghost use Rattle.std.specs.Prelude.{◌≡◌, ◌≤◌, length};
ghost use Rattle.laws.specs.Written.{tabulate};
ghost use Rattle.messages.specs.Memory.{bits_of};
ghost use Rattle.ldpc.specs.Code.{code_graph, work_of};
ghost use Rattle.channel.specs.Channel.{channel_of, start_memory};

use ldpc::{Code, ValidCode};
use lists::Lists;
use segments::copy_run;
use sizes::Lifted;

// The channel: readings below k, certain ones up to where parity begins, and there the readings from k on.
#[tactic(auto, unfolding(messages::specs::Memory::bits_of))]
fn put_channel(code: ValidCode, rx: &[f32], channel: &mut [f32])
    requires given { length rx.now ≡ code.code.n_tx }
    requires room { length channel.old ≡ bits_of (code_graph code.code) code.code.z }
    ensures { channel.new ≡ tabulate (channel_of code.code rx.now) (bits_of (code_graph code.code) code.code.z) }
{
    let k = code.code.k;
    let end = code.info_end();
    let (front, parity) = channel.split_at_mut(end);
    let (information, shortened) = front.split_at_mut(k);
    copy_run(information, &rx[..k]);
    shortened.fill(Code::CERTAIN);
    copy_run(parity, &rx[k..]);
}

// Everything that a start writes.
#[tactic(auto, using(crate::proofs::Started::bits_are))]
fn put_messages(l: &Lifted, rx: &[f32], work: &mut [f32])
    requires given { length rx.now ≡ l.now.code.code.n_tx }
    requires room { work_of l.now.code.code ≤ length work.old }
    ensures { work.new ≡ start_memory l.now.code.code rx.now work.old }
{
    let s = l.sizes;
    let (channel, rest) = work.split_at_mut(s.bits);
    let (totals, rest) = rest.split_at_mut(s.bits);
    let (to_checks, rest) = rest.split_at_mut(s.slots);
    let (to_bits, _) = rest.split_at_mut(s.slots);
    put_channel(l.code, rx, channel);
    copy_run(totals, channel);
    spread::spread_pass(l, channel, to_checks);
    to_bits.fill(0.0);
}

// The same, by lists made here.
pub fn begin(code: ValidCode, rx: &[f32], work: &mut [f32])
    requires given { length rx.now ≡ code.code.n_tx }
    requires room { work_of code.code ≤ length work.old }
    ensures { work.new ≡ start_memory code.code rx.now work.old }
{
    let mut room = Lists::blank();
    put_messages(&Lifted::of(code, &mut room), rx, work);
}
