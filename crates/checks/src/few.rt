// The checks of a base row at a lift Z below 4, by one vector of which as many lanes count as there are checks. Z is a constant, so
// that no slot asks for a product.
// These are the functions of block.rt by the lift as a constant: with its loads, and a test at each edge of whether four numbers stand
// there, a row takes 12 to 30 in 100 longer.
ghost use Rattle.std.specs.Prelude.{◌≡◌, ◌<◌, length};
ghost use Rattle.std.specs.Float.{nan};
ghost use Rattle.laws.specs.Written.{Written};
ghost use Rattle.messages.specs.Memory.{number};
ghost use Rattle.messages.specs.Iteration.{answer};
ghost use Rattle.slots.specs.Row.{Of};
ghost use Rattle.checks.specs.Lanes.{Gathers};

use crate::vectors::Four;
use slots::{Edges, place, slot};

// What the messages of a row come to.
fn gather<const Z: usize>(row: Edges, to_checks: &[f32]) -> Four
    requires { (Z < 4) × (row.z ≡ Z) × (length to_checks.now ≡ row.slots) }
    ensures { Gathers result Z (number to_checks.now) Z 0 row.entry.list.now }
{
    let mut l = Four::new();
    for &b in row.list {
        let m = lanes::load_some::<Z, 4>(to_checks, slot(b, Z, 0));
        l = l.with(m, place(b));
    }
    l
}

// Sends what its checks answer.
fn scatter<const Z: usize>(row: Edges, l: Four, factor: f32, to_checks: &[f32], to_bits: &mut [f32])
    requires few { (Z < 4) × (row.z ≡ Z) }
    requires long { (length to_checks.now ≡ row.slots) × (length to_bits.old ≡ row.slots) }
    requires gathers { Gathers l Z (number to_checks.now) Z 0 row.list.now }
    ensures { Written nan 0 (Of row.entry.list.now (length row.entry.list.now) Z) (answer factor Z row.entry.list.now (number to_checks.now)) to_bits.old to_bits.new }
{
    for &b in row.list {
        let s = slot(b, Z, 0);
        let m = lanes::load_some::<Z, 4>(to_checks, s);
        lanes::store_some::<Z, 4>(to_bits, s, l.message(factor, m, place(b)));
    }
}

// The checks of a row.
pub fn check_row<const Z: usize>(row: Edges, factor: f32, to_checks: &[f32], to_bits: &mut [f32])
    requires few { (Z < 4) × (row.z ≡ Z) }
    requires long { (length to_checks.now ≡ row.slots) × (length to_bits.old ≡ row.slots) }
    ensures { Written nan 0 (Of row.entry.list.now (length row.entry.list.now) Z) (answer factor Z row.entry.list.now (number to_checks.now)) to_bits.old to_bits.new }
{
    let l = gather::<Z>(row, to_checks);
    scatter::<Z>(row, l, factor, to_checks, to_bits);
}
