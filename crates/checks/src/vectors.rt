// What four checks have gathered, as vectors of 4 lanes.
ghost use Rattle.std.specs.Prelude.{◌≡◌, List, length, map, get_or};
ghost use Rattle.std.specs.Float.{nan};
ghost use Rattle.laws.specs.Floats;
ghost use Rattle.laws.specs.Written.{tabulate};
ghost use Rattle.rule.specs.declared.Least.{Least};
ghost use Rattle.rule.specs.Rule.{started, taken, answered};
ghost use Rattle.slots.specs.Row.{past};
ghost use Rattle.checks.specs.Lanes.{Shows};

use std::simd::prelude::*;

// What four checks have gathered: each lane is a record of the crate rule.
#[derive(Clone, Copy)]
pub struct Four {
    pub min1: f32x4,
    pub min2: f32x4,
    pub place: u32x4,
    pub sign: mask32x4,
}

impl Four {
    // Four checks that have gathered nothing.
    pub fn new() -> Four
        ensures { Shows result (tabulate (λ j. started) 4) }
    {
        Four {
            min1: f32x4::splat(f32::INFINITY),
            min2: f32x4::splat(f32::INFINITY),
            place: u32x4::splat(0),
            sign: mask32x4::splat(false),
        }
    }

    // Each with one message more. The magnitudes change on strictly smaller only, as in the crate rule.
    pub fn with(self, m: f32x4, place: u32) -> Four
        ensures { (rs : List Least) → length rs ≡ 4 → Shows self rs → Shows result (tabulate (λ j. taken (get_or rs j past) (get_or m j nan) place) 4) }
    {
        let a = magnitude(m);
        let first = a.simd_lt(self.min1);
        Four {
            min1: first.select(a, self.min1),
            min2: first.select(self.min1, a.simd_lt(self.min2).select(a, self.min2)),
            place: first.select(u32x4::splat(place), self.place),
            sign: self.sign ^ m.simd_lt(f32x4::splat(0.0)),
        }
    }

    // What each sends to the place that sent its message.
    pub fn message(self, factor: f32, m: f32x4, place: u32) -> f32x4
        ensures { (rs : List Least) → length rs ≡ 4 → Shows self rs → result ≡ tabulate (λ j. answered factor (get_or rs j past) (get_or m j nan) place) 4 }
    {
        let below = f32x4::splat(factor * -1.0);
        let other = f32x4::splat(factor * 1.0);
        let s = (self.sign ^ m.simd_lt(f32x4::splat(0.0))).select(below, other);
        let own = u32x4::splat(place).simd_eq(self.place);
        s * own.select(self.min2, self.min1)
    }
}

// The sign bits cleared: of −0, NaN and the infinities too.
fn magnitude(m: f32x4) -> f32x4
    ensures { result ≡ map Floats.magnitude m }
{
    let n = f32x4::splat(0.0) - m;
    n.simd_lt(m).select(m, n)
}
