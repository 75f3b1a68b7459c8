// The checks of a base row at one block of 4.
ghost use Rattle.std.specs.Prelude.{◌≡◌, ◌+◌, ◌≤◌, length};
ghost use Rattle.std.specs.Float.{nan};
ghost use Rattle.laws.specs.Written.{Written};
ghost use Rattle.messages.specs.Memory.{number};
ghost use Rattle.messages.specs.Iteration.{answer};
ghost use Rattle.slots.specs.Row.{Pairs};
ghost use Rattle.checks.specs.Lanes.{Gathers};

use crate::vectors::Four;
use slots::{Edges, place};

// What the messages of a row come to, at the four offsets from t on.
fn gather(row: Edges, t: usize, to_checks: &[f32]) -> Four
    requires { (t + 4 ≤ row.z) × (length to_checks.now ≡ row.slots) }
    ensures { Gathers result 4 (number to_checks.now) row.entry.z t row.entry.list.now }
{
    let mut l = Four::new();
    for &b in row.list {
        let m = lanes::load::<4>(to_checks, row.slot(b, t));
        l = l.with(m, place(b));
    }
    l
}

// Sends what those checks answer.
fn scatter(row: Edges, t: usize, l: Four, factor: f32, to_checks: &[f32], to_bits: &mut [f32])
    requires fits { t + 4 ≤ row.z }
    requires long { (length to_checks.now ≡ row.slots) × (length to_bits.old ≡ row.slots) }
    requires gathers { Gathers l 4 (number to_checks.now) row.z t row.list.now }
    ensures { Written nan 0 (Pairs row.entry.list.now (length row.entry.list.now) row.entry.z t t) (answer factor row.entry.z row.entry.list.now (number to_checks.now)) to_bits.old to_bits.new }
{
    for &b in row.list {
        let s = row.slot(b, t);
        let m = lanes::load::<4>(to_checks, s);
        lanes::store(to_bits, s, l.message(factor, m, place(b)));
    }
}

// The checks at the offsets from t on.
pub fn check_block(row: Edges, t: usize, factor: f32, to_checks: &[f32], to_bits: &mut [f32])
    requires fits { t + 4 ≤ row.z }
    requires long { (length to_checks.now ≡ row.slots) × (length to_bits.old ≡ row.slots) }
    ensures { Written nan 0 (Pairs row.entry.list.now (length row.entry.list.now) row.entry.z t t) (answer factor row.entry.z row.entry.list.now (number to_checks.now)) to_bits.old to_bits.new }
{
    let l = gather(row, t, to_checks);
    scatter(row, t, l, factor, to_checks, to_bits);
}
