// The calls of a list: how one is drawn, and what it is to refuse. Assumes nothing.
ghost use Rattle.std.specs.Prelude.{◌≡◌};
ghost use Rattle.refusals.specs.Outcome.{numbers_of};
ghost use Rattle.soak.specs.Calls.{amount_of, lent_of, room_of, call_of, plain_of, changed_of, grant_refusal, read_refusal, refusal_of, is_grant};

use decoder::Decode;
use ldpc::Code;
use refusals::{Numbers, Refusal};

// A call of a list. It is lent so many numbers of work memory, and may get a changed record.
#[derive(Clone, Copy, Debug, PartialEq, Eq)]
pub enum Call {
    // of g iterations
    Grant {
        g: u16,
        lent: usize,
        changed: bool,
    },
    // into an output of `room` bytes
    Read {
        room: usize,
        lent: usize,
        changed: bool,
    },
}

// By a drawn number, which names no kind: 0 to 4 iterations; more than may be done; or, of a decode that has converged, as
// many as may be.
#[tactic(auto, unfolding(crate::specs::Calls::amount_of))]
fn amount_of(draw: usize, d: Decode) -> u16
    ensures { result ≡ amount_of draw d }
{
    match draw % 8 {
        5 if 0 < d.iterations => 65535,
        6 if d.converged => 65535 - d.iterations,
        // a cast of what is below 5, where a `try_from` would have an error to take apart
        n => (n % 5) as u16,
    }
}

// By a drawn number: half of what is needed, one less, as much, or all there is.
#[tactic(auto, unfolding(crate::specs::Calls::lent_of))]
fn lent_of(draw: usize, needed: usize, all: usize) -> usize
    ensures { result ≡ lent_of draw needed all }
{
    match draw % 16 {
        0 => needed / 2,
        1 => needed.saturating_sub(1),
        2 => needed,
        _ => all,
    }
}

// By a drawn number: an output that is too short, too long, or right.
#[tactic(auto, unfolding(crate::specs::Calls::room_of))]
fn room_of(draw: usize, n_tx: usize) -> usize
    ensures { result ≡ room_of draw n_tx }
{
    match draw % 16 {
        0 => n_tx / 2,
        1 => crate::tally::sum_of(n_tx, 1),
        _ => n_tx,
    }
}

impl Call {
    // The call that a state of the generator draws.
    #[tactic(auto, unfolding(crate::specs::Calls::call_of))]
    pub fn of(state: usize, d: Decode, all: usize) -> Call
        ensures { result ≡ call_of state d all }
    {
        let lent = lent_of(state / 24, d.code.work_needed(), all);
        let changed = state / 6144 % 8 == 5;
        if state % 3 == 0 {
            let room = room_of(state / 384, d.code.n_tx);
            Call::Read {
                room,
                lent,
                changed,
            }
        } else {
            let g = amount_of(state / 3, d);
            Call::Grant { g, lent, changed }
        }
    }

    // A read with nothing amiss.
    #[tactic(auto, unfolding(crate::specs::Calls::plain_of))]
    pub fn plain(d: Decode, all: usize) -> Call
        ensures { result ≡ plain_of d all }
    {
        Call::Read {
            room: d.code.n_tx,
            lent: all,
            changed: false,
        }
    }

    pub fn is_grant(self) -> bool
        ensures { result ≡ is_grant self }
    {
        matches!(self, Call::Grant { .. })
    }

    // What it is to refuse: a changed record first; then a grant too little work memory and too many iterations, a read an
    // output of another length and too little work memory.
    #[tactic(auto, unfolding(crate::specs::Calls::refusal_of))]
    pub fn refusal(self, d: Decode) -> Option<Refusal>
        ensures { result ≡ refusal_of d self }
    {
        match self {
            Call::Grant { g, lent, changed } => grant_refusal(d, g, lent, changed),
            Call::Read {
                room,
                lent,
                changed,
            } => read_refusal(d, room, lent, changed),
        }
    }
}

// The number and the pair that a refusal of a list is to tell. They are written out here, since `Refusal::numbers` is compiled code, which
// the soak holds to them. No other refusal is wanted of a list.
pub fn told(r: Refusal) -> Numbers
    ensures { result ≡ numbers_of r }
{
    let (number, first, second) = match r {
        Refusal::Work { given, needed } => (8, given, needed),
        Refusal::Output { given, wanted } => (9, given, wanted),
        Refusal::Iterations(sum) => (10, sum, 65535),
        Refusal::Record { rate, n_tx } => (11, rate, n_tx),
        _ => return r.numbers(),
    };
    Numbers {
        number,
        first,
        second,
    }
}

// The record that a call gets: where it is to be refused, one with another k.
#[tactic(auto, unfolding(crate::specs::Calls::changed_of))]
pub fn changed_of(d: Decode, changed: bool) -> Decode
    ensures { result ≡ changed_of d changed }
{
    if changed {
        let code = Code {
            k: d.code.k / 2,
            ..d.code
        };
        Decode { code, ..d }
    } else {
        d
    }
}

#[tactic(auto, unfolding(crate::specs::Calls::grant_refusal))]
fn grant_refusal(d: Decode, g: u16, lent: usize, changed: bool) -> Option<Refusal>
    ensures { result ≡ grant_refusal d g lent changed }
{
    let needed = d.code.work_needed();
    let all = usize::from(d.iterations) + usize::from(g);
    if changed {
        Some(Refusal::Record {
            rate: d.code.rate,
            n_tx: d.code.n_tx,
        })
    } else if lent < needed {
        Some(Refusal::Work {
            given: lent,
            needed,
        })
    } else if 65535 < all {
        Some(Refusal::Iterations(all))
    } else {
        None
    }
}

#[tactic(auto, unfolding(crate::specs::Calls::read_refusal))]
fn read_refusal(d: Decode, room: usize, lent: usize, changed: bool) -> Option<Refusal>
    ensures { result ≡ read_refusal d room lent changed }
{
    let needed = d.code.work_needed();
    if changed {
        Some(Refusal::Record {
            rate: d.code.rate,
            n_tx: d.code.n_tx,
        })
    } else if room != d.code.n_tx {
        Some(Refusal::Output {
            given: room,
            wanted: d.code.n_tx,
        })
    } else if lent < needed {
        Some(Refusal::Work {
            given: lent,
            needed,
        })
    } else {
        None
    }
}
