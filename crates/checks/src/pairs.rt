// The checks of a base row by two blocks of 4 at a time. The blocks of a pair may overlap: what a check sends is a matter of the
// messages to it alone, so that it may be computed twice.
// The functions of block.rt stand here for two: with one block at a time an edge takes 17 instructions where it takes 14.
ghost use Rattle.std.specs.Prelude.{◌≡◌, ◌+◌, ◌≤◌, length};
ghost use Rattle.std.specs.Float.{nan};
ghost use Rattle.laws.specs.Written.{Written};
ghost use Rattle.messages.specs.Memory.{number};
ghost use Rattle.messages.specs.Iteration.{answer};
ghost use Rattle.slots.specs.Row.{Of, Pairs};
ghost use Rattle.checks.specs.Lanes.{Gathers};

use crate::block::check_block;
use crate::vectors::Four;
use slots::{Edges, place};

// What the checks of two blocks have gathered.
#[derive(Clone, Copy)]
struct Pair {
    first: Four,
    second: Four,
}

// What the messages of a row come to, at the four offsets from t on and from u on.
fn gather(row: Edges, t: usize, u: usize, to_checks: &[f32]) -> Pair
    requires { (t + 4 ≤ row.z) × (u + 4 ≤ row.z) × (length to_checks.now ≡ row.slots) }
    ensures first { Gathers result.first 4 (number to_checks.now) row.entry.z t row.entry.list.now }
    ensures second { Gathers result.second 4 (number to_checks.now) row.entry.z u row.entry.list.now }
{
    let mut first = Four::new();
    let mut second = Four::new();
    for &b in row.list {
        let m = lanes::load::<4>(to_checks, row.slot(b, t));
        let n = lanes::load::<4>(to_checks, row.slot(b, u));
        first = first.with(m, place(b));
        second = second.with(n, place(b));
    }
    Pair { first, second }
}

// Sends what those checks answer.
fn scatter(
    row: Edges,
    t: usize,
    u: usize,
    pair: Pair,
    factor: f32,
    to_checks: &[f32],
    to_bits: &mut [f32],
)
    requires fits { (t + 4 ≤ row.z) × (u + 4 ≤ row.z) }
    requires long { (length to_checks.now ≡ row.slots) × (length to_bits.old ≡ row.slots) }
    requires gathers { Gathers pair.first 4 (number to_checks.now) row.z t row.list.now × Gathers pair.second 4 (number to_checks.now) row.z u row.list.now }
    ensures { Written nan 0 (Pairs row.entry.list.now (length row.entry.list.now) row.entry.z t u) (answer factor row.entry.z row.entry.list.now (number to_checks.now)) to_bits.old to_bits.new }
{
    for &b in row.list {
        let s = row.slot(b, t);
        let r = row.slot(b, u);
        let m = lanes::load::<4>(to_checks, s);
        let n = lanes::load::<4>(to_checks, r);
        lanes::store(to_bits, s, pair.first.message(factor, m, place(b)));
        lanes::store(to_bits, r, pair.second.message(factor, n, place(b)));
    }
}

// The checks at the offsets from t on and from u on; where the two blocks are one, it is worked once.
fn check_blocks(row: Edges, t: usize, u: usize, factor: f32, to_checks: &[f32], to_bits: &mut [f32])
    requires fits { (t + 4 ≤ row.z) × (u + 4 ≤ row.z) }
    requires long { (length to_checks.now ≡ row.slots) × (length to_bits.old ≡ row.slots) }
    ensures { Written nan 0 (Pairs row.entry.list.now (length row.entry.list.now) row.entry.z t u) (answer factor row.entry.z row.entry.list.now (number to_checks.now)) to_bits.old to_bits.new }
{
    if t == u {
        check_block(row, t, factor, to_checks, to_bits);
    } else {
        let pair = gather(row, t, u, to_checks);
        scatter(row, t, u, pair, factor, to_checks, to_bits);
    }
}

// The checks of a row of 4 or more; the last blocks go back as far as they must.
pub fn check_row(row: Edges, factor: f32, to_checks: &[f32], to_bits: &mut [f32])
    requires fits { 4 ≤ row.z }
    requires long { (length to_checks.now ≡ row.slots) × (length to_bits.old ≡ row.slots) }
    ensures { Written nan 0 (Of row.entry.list.now (length row.entry.list.now) row.entry.z) (answer factor row.entry.z row.entry.list.now (number to_checks.now)) to_bits.old to_bits.new }
{
    let last = row.z - 4;
    for pair in 0..row.z.div_ceil(8) {
        let t = (8 * pair).min(last);
        let u = (8 * pair + 4).min(last);
        check_blocks(row, t, u, factor, to_checks, to_bits);
    }
}
