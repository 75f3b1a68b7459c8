// The check rule of normalised min-sum, one message at a time: what the passes by vectors do lane by lane. Assumes nothing.
#![tactic(auto)]

ghost use Rattle.std.specs.Prelude.{◌≡◌, false, cond};
ghost use Rattle.std.specs.Bool.{xor};
ghost use Rattle.std.specs.Float.{binary32, inf};
ghost use Rattle.std.specs.Float.Ieee.{lt, mul};
ghost use Rattle.laws.specs.Floats;
ghost use Rattle.rule.specs.Rule.{Ordered, started, taken, answered};

// What the messages to a check come to: the smallest magnitude, the second smallest, the place of the smallest, and whether
// an odd number of them are negative.
#[derive(Clone, Copy, Debug)]
pub struct Least {
    pub min1: f32,
    pub min2: f32,
    pub argmin: u32,
    pub sign: bool,
}

// The sign bit cleared: of −0, NaN and the infinities too.
#[tactic(auto, unfolding(laws::specs::Floats::magnitude))]
fn magnitude(m: f32) -> f32
    ensures { result ≡ Floats.magnitude m }
{
    m.abs()
}

// Whether m is below zero.
#[tactic(auto, unfolding(laws::specs::Floats::negative))]
pub fn negative(m: f32) -> bool
    ensures { result ≡ Floats.negative m }
{
    m < 0.0
}

// −1 or 1.
fn signed(negative: bool) -> f32
    ensures { result ≡ Floats.signed negative }
{
    if negative { -1.0 } else { 1.0 }
}

// One of two values.
fn select<T: Copy>(first: bool, a: T, b: T) -> T
    ensures { result ≡ cond first a b }
{
    if first { a } else { b }
}

impl Least {
    pub fn new() -> Least
        ensures value { result ≡ started }
        ensures ordered { Ordered result }
    {
        Least {
            min1: f32::INFINITY,
            min2: f32::INFINITY,
            argmin: 0,
            sign: false,
        }
    }

    // With one message more, m, at a place.
    pub fn with(self, m: f32, place: u32) -> Least
        ensures value { result ≡ taken self m place }
        ensures ordered { Ordered self → Ordered result }
    {
        let a = magnitude(m);
        let first = a < self.min1;
        let second = select(a < self.min2, a, self.min2);
        Least {
            min1: select(first, a, self.min1),
            min2: select(first, self.min1, second),
            argmin: select(first, place, self.argmin),
            sign: self.sign != negative(m),
        }
    }

    // The factor with the sign that goes to a place whose message is negative, or is not.
    pub fn weight(self, factor: f32, negative: bool) -> f32
        ensures { result ≡ mul binary32 factor (Floats.signed (xor self.sign negative)) }
    {
        factor * signed(self.sign != negative)
    }

    // Whether the smallest magnitude is below infinity: then argmin is the place of a message.
    pub fn found(self) -> bool
        ensures { result ≡ lt self.«min1» (inf false) }
    {
        self.min1 < f32::INFINITY
    }

    // The message to the place that sent m.
    pub fn message(self, factor: f32, m: f32, place: u32) -> f32
        ensures { result ≡ answered factor self m place }
    {
        self.weight(factor, negative(m)) * select(place == self.argmin, self.min2, self.min1)
    }
}
