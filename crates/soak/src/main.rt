// The soak: lists of grants and reads, refused ones among them, of every code from 3 to 300 transmitted bits and of a spread
// up to 1,000. Every accepted read, and one after each refused grant and each list, is held to the unbroken decode limited to
// the sum of the accepted grants. Prints one line of totals, in which the differences are to be 0. It tests the compiled
// code, which no proof covers.
// What is drawn, compared and counted has its contract in the modules. The functions here drive the calls through a list and
// count; they are private and have no `ensures`. Assumes nothing.
#![tactic(auto)]

mod calls;
mod compare;
mod inputs;
mod tally;

ghost use Rattle.std.specs.Prelude.{◌<◌};

use calls::{Call, changed_of, told};
use compare::apart;
use decoder::{Decode, DecodeResult};
use ldpc::Code;
use refusals::Refusal;
use std::io;
use tally::{Totals, limit_of, sum_of};

// More work memory than any of the codes needs, and a byte more than the longest word.
const WORK: usize = 8000;

const OUT: usize = 1001;

// A list under way: the record last returned, the sum of the accepted grants, the generator's state, the readings, the work
// memory, and what is counted. It lends memory that is written, so it is no copy.
#[derive(Drop)]
struct List<'a> {
    decode: Decode,
    sum: usize,
    state: usize,
    rx: &'a [f32],
    work: &'a mut [f32],
    totals: &'a mut Totals,
}

impl<'a> List<'a> {
    fn grant(&mut self, g: u16, lent: usize, changed: bool) -> Result<(), Refusal> {
        let lent = lent.min(self.work.len());
        let d = changed_of(self.decode, changed);
        self.decode = d.grant(g, &mut self.work[..lent])?;
        self.sum = sum_of(self.sum, usize::from(g));
        self.totals.count_grant();
        Ok(())
    }

    // The unbroken decode of the same readings, limited to the sum of the accepted grants.
    fn decode_at_once(&self, word: &mut [u8], work: &mut [f32]) -> Result<DecodeResult, Refusal> {
        let c = self.decode.code;
        let n = c.n_tx.min(word.len());
        decoder::decode(
            c.rate,
            c.n_tx,
            self.rx,
            limit_of(self.sum),
            work,
            &mut word[..n],
        )
    }

    // The places where what a read gave differs from the unbroken decode, in another memory.
    fn differences(&self, r: DecodeResult, out: &[u8]) -> usize {
        let mut word = [9; OUT];
        let mut work = [7.5; WORK];
        let Ok(unbroken) = self.decode_at_once(&mut word, &mut work) else {
            return 1;
        };
        let written = sum_of(apart(out, &word), apart(self.work, &work));
        sum_of(usize::from(r != unbroken), written)
    }

    fn count_read(&mut self, r: DecodeResult, out: &[u8]) {
        let differences = self.differences(r, out);
        self.totals.count_differences(differences);
        self.totals.count_read(r.converged, r.clean);
    }

    // A refused read leaves its output as it was.
    fn read(&mut self, room: usize, lent: usize, changed: bool) -> Result<(), Refusal> {
        let blank = [9; OUT];
        let mut out = blank;
        let room = room.min(OUT);
        let lent = lent.min(self.work.len());
        let d = changed_of(self.decode, changed);
        let answer = d.read(&self.work[..lent], &mut out[..room]);
        match answer {
            Ok(r) => self.count_read(r, &out),
            Err(_) => self.totals.count_differences(apart(&out, &blank)),
        }
        answer.map(|_| ())
    }

    // Makes a call. Answers whether it was refused.
    fn make(&mut self, call: Call) -> bool {
        let wanted = call.refusal(self.decode);
        let answer = match call {
            Call::Grant { g, lent, changed } => self.grant(g, lent, changed),
            Call::Read {
                room,
                lent,
                changed,
            } => self.read(room, lent, changed),
        };
        if answer.is_err() {
            self.totals.count_refusal();
        }
        let numbers = answer.err().map(|r| r.numbers());
        self.totals
            .count_differences(usize::from(numbers != wanted.map(|r| told(r))));
        answer.is_err()
    }

    fn read_plainly(&mut self) {
        self.make(Call::plain(self.decode, self.work.len()));
    }

    // Makes the call that is drawn next. What a refused call had changed is seen by a read, before another grant can hide it.
    fn next_call(&mut self) {
        self.state = readings::next_state(self.state);
        let call = Call::of(self.state, self.decode, self.work.len());
        if self.make(call) & call.is_grant() {
            self.read_plainly();
        }
    }
}

// A start, which is to be accepted, a list of 3 to 8 calls, and a read.
fn soak_list(c: Code, seed: usize, rx: &[f32], work: &mut [f32], totals: &mut Totals) {
    let Ok(decode) = Decode::start(c, rx, work) else {
        totals.count_differences(1);
        return;
    };
    let mut list = List {
        decode,
        sum: 0,
        state: seed,
        rx,
        work,
        totals,
    };
    for _ in 0..3 + readings::next_state(seed) % 6 {
        list.next_call();
    }
    list.read_plainly();
    let iterations = list.decode.iterations;
    list.totals.count_list(iterations);
}

// A list of a code, if Choice makes it.
fn soak_code(rate: usize, n_tx: usize, turn: usize, totals: &mut Totals)
    requires { (rate < 6) × (turn < 4) }
{
    let Ok(c) = Code::new(rate, n_tx) else {
        return;
    };
    let k = c.k.min(1000);
    let n = n_tx.min(1000);
    let seed = 6007 * turn + 6 * n + rate;
    let mut info = [0; 1000];
    let mut word = [0; 1000];
    let mut rx = [0.0; 1000];
    let mut work = [7.5; WORK];
    inputs::fill_inputs(c, seed, &mut info[..k], &mut word[..n], &mut rx[..n]);
    soak_list(c, seed, &rx[..n], &mut work, totals);
}

fn soak_rates(n_tx: usize, turn: usize, totals: &mut Totals)
    requires { turn < 4 }
{
    for rate in 0..6 {
        soak_code(rate, n_tx, turn, totals);
    }
}

// Four lists of each code.
fn soak() -> Totals {
    let mut totals = Totals::new();
    for turn in 0..4 {
        for n_tx in 3..=300 {
            soak_rates(n_tx, turn, &mut totals);
        }
        for i in 0..25 {
            soak_rates(inputs::spread_length(i), turn, &mut totals);
        }
    }
    totals
}

fn main(rt: HostRuntime) -> io::Result<()> {
    println!(rt; "{}", soak())
}
