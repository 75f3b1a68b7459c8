// A run of iterations: until the decisions meet every check, or the grant is spent; and the unbroken decode, which is such a run
// from a fresh start.
#![tactic(auto)]

ghost use Rattle.std.specs.Prelude.{◌≡◌, ◌+◌, ◌≤◌, length};
ghost use Rattle.ldpc.specs.Code.{work_of};
ghost use Rattle.runs.specs.Runs.{alpha, iterated, unbroken, reach_of, reached_in};

use ldpc::{Code, ValidCode};
use lists::Lists;
use sizes::Lifted;

// How far a decode has got: the iterations done, and whether the last of them converged. `Decode` has the two beside its code, as its
// callers see plain fields.
#[derive(Clone, Copy, Debug, PartialEq, Eq)]
pub struct Reach {
    pub iterations: u16,
    pub converged: bool,
}

// At most g iterations. A decode that has converged stays as it is.
fn iterations(l: &Lifted, from: Reach, g: u16, work: &mut [f32]) -> Reach
    requires sum { from.iterations + g ≤ 65535 }
    requires room { work_of l.now.code.code ≤ length work.old }
    ensures value { result ≡ reach_of (iterated alpha l.now.code.code g (reached_in from work.old)) }
    ensures work_after { work.new ≡ (iterated alpha l.now.code.code g (reached_in from work.old)).memory }
{
    let mut reach = from;
    'iterations: for _ in 0..g {
        if reach.converged {
            return reach;
        }
        minsum::iterate(l, Code::ALPHA, work);
        reach = Reach {
            iterations: reach.iterations + 1,
            converged: convergence::converged(l, work),
        };
    }
    reach
}

// The same of a code, by lists made here.
pub fn go_on(code: ValidCode, from: Reach, g: u16, work: &mut [f32]) -> Reach
    requires sum { from.iterations + g ≤ 65535 }
    requires room { work_of code.code ≤ length work.old }
    ensures value { result ≡ reach_of (iterated alpha code.code g (reached_in from work.old)) }
    ensures work_after { work.new ≡ (iterated alpha code.code g (reached_in from work.old)).memory }
{
    // no lists are made for a decode that has converged
    if from.converged {
        return from;
    }
    // not by `Lifted::of`: then the compiler makes another bit pass, by which 200 bits take 25 in 100 more instructions
    let mut lists = Lists::blank();
    lists::write_lists(code, &mut lists);
    iterations(&Lifted::new(code, &lists), from, g, work)
}

// Start, and at most `limit` iterations: the unbroken decode.
#[tactic(auto, unfolding(crate::specs::Runs::unbroken, crate::specs::Runs::reached_in))]
pub fn decode_unbroken(code: ValidCode, rx: &[f32], limit: u16, work: &mut [f32]) -> Reach
    requires given { length rx.now ≡ code.code.n_tx }
    requires room { work_of code.code ≤ length work.old }
    ensures value { result ≡ reach_of (unbroken alpha code.code rx.now work.old limit) }
    ensures work_after { work.new ≡ (unbroken alpha code.code rx.now work.old limit).memory }
{
    channel::begin(code, rx, work);
    let fresh = Reach {
        iterations: 0,
        converged: false,
    };
    go_on(code, fresh, limit, work)
}
