// An operation over slices of one length. The last block of a run goes back as far as it must, so that no rest is left; it is
// computed before any is put, so that no number is added twice.
ghost use Rattle.std.specs.Prelude.{◌≡◌, ◌<◌, ◌≤◌, length};
ghost use Rattle.segments.specs.Combined.{combined};

use crate::operation::{Lanewise, Operation};

// Fewer than four: the loop of `long`, where the compiler knows how few they are, and makes no vectors and no test of whether they pay.
#[tactic(auto, using(crate::proofs::Runs::upto_none, crate::proofs::Runs::upto_all))]
fn few<O: Operation>(o: O, to: &mut [f32], a: &[f32], b: &[f32])
    requires few { length to.old < 4 }
    requires lengths { (length a.now ≡ length to.old) × (length b.now ≡ length to.old) }
    ensures { to.new ≡ combined O.op to.old a.now b.now }
{
    for i in 0..to.len() {
        to[i] = o.one(to[i], a[i], b[i]);
    }
}

// Four to eight.
fn fours<O: Lanewise<4>>(o: O, to: &mut [f32], a: &[f32], b: &[f32])
    requires some { (4 ≤ length to.old) × (length to.old ≤ 8) }
    requires lengths { (length a.now ≡ length to.old) × (length b.now ≡ length to.old) }
    ensures { to.new ≡ combined O.Operation.op to.old a.now b.now }
{
    let n = to.len();
    let first = o.block(to, a, b, 0);
    let last = o.block(to, a, b, n - 4);
    lanes::store(to, 0, first);
    lanes::store(to, n - 4, last);
}

// Eight and more.
fn eights<O: Lanewise<8>>(o: O, to: &mut [f32], a: &[f32], b: &[f32])
    requires some { 8 ≤ length to.old }
    requires lengths { (length a.now ≡ length to.old) × (length b.now ≡ length to.old) }
    ensures { to.new ≡ combined O.Operation.op to.old a.now b.now }
{
    let n = to.len();
    let last = o.block(to, a, b, n - 8);
    for i in 0..(n - 1) / 8 {
        let block = o.block(to, a, b, 8 * i);
        lanes::store(to, 8 * i, block);
    }
    lanes::store(to, n - 8, last);
}

// A long run: the compiler makes vectors of the loop.
#[tactic(auto, using(crate::proofs::Runs::upto_none, crate::proofs::Runs::upto_all))]
fn long<O: Operation>(o: O, to: &mut [f32], a: &[f32], b: &[f32])
    requires lengths { (length a.now ≡ length to.old) × (length b.now ≡ length to.old) }
    ensures { to.new ≡ combined O.op to.old a.now b.now }
{
    for (i, number) in to.iter_mut().enumerate() {
        *number = o.one(*number, a[i], b[i]);
    }
}

// Every number of `to`, of itself and of those beside it.
pub fn run<O: Lanewise<4> + Lanewise<8>>(o: O, to: &mut [f32], a: &[f32], b: &[f32])
    requires lengths { (length a.now ≡ length to.old) × (length b.now ≡ length to.old) }
    ensures { to.new ≡ combined O.Operation.op to.old a.now b.now }
{
    match to.len() {
        64.. => long(o, to, a, b),
        8.. => eights(o, to, a, b),
        4.. => fours(o, to, a, b),
        _ => few(o, to, a, b),
    }
}
