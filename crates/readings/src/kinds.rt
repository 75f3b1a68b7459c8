// The reading of a bit in a state of the generator, and the readings of a word. A one is read as a negative number.
ghost use Rattle.std.specs.Prelude.{◌≡◌, cond, length, get_or};
ghost use Rattle.std.specs.Float.Ieee.{neg};
ghost use Rattle.readings.specs.Kinds.{level_at, awkward_at, noisy_of, mixed_of, kind_of, reading_by, readings_of};

use crate::generator::next_state;

// Four magnitudes, so that there are ties.
const LEVELS: [f32; 4] = [0.5, 1.0, 1.5, 2.0];

// Zeros, infinities, a NaN, denormals, the largest finite numbers, and small and large ones.
const AWKWARD: [f32; 16] = [
    0.0,
    -0.0,
    1.0f32 / 0.0f32,
    -1.0f32 / 0.0f32,
    0.0f32 / 0.0f32,
    1e-45,
    -1e-45,
    1e-39,
    3.4028235e38,
    -3.4028235e38,
    1e-30,
    -1e-30,
    1e8,
    -1e8,
    1.0,
    -1.0,
];

// How a word is read.
#[derive(Clone, Copy, Debug, PartialEq, Eq)]
pub enum Kind {
    // signs alone, some of them reversed
    Signs,
    // four magnitudes, some signs reversed
    Levels,
    // the magnitude 0.1 alone, some signs reversed
    Tenth,
    // awkward values, whatever the bit
    Awkward,
    // a sign with noise on it
    Noise,
    // the same, with awkward values in it
    Mixed,
}

// A number, negated for a one: a sign, and no rotation. The library has no such select by a bool.
fn turned(one: bool, x: f32) -> f32
    ensures { result ≡ cond one (neg x) x }
{
    if one { -x } else { x }
}

fn level(i: usize) -> f32
    ensures { result ≡ level_at i }
{
    LEVELS[i % 4]
}

fn awkward(i: usize) -> f32
    ensures { result ≡ awkward_at i }
{
    AWKWARD[i % 16]
}

// A sign with noise up to 1.25 on it, in steps of 5 / 65536.
fn noisy(bit: u8, s: usize) -> f32
    ensures { result ≡ noisy_of bit s }
{
    // A cast of what is below 32768, where a `try_from` would have an error to take apart.
    let n = (s / 2 % 32768) as u16;
    let noise = (f32::from(n) - 16384.0) * 0.0000762939453125;
    turned(bit != 0, 1.0) + noise
}

// The same, with an awkward value in one state of 32.
#[tactic(auto, unfolding(crate::specs::Kinds::mixed_of))]
fn mixed(bit: u8, s: usize) -> f32
    ensures { result ≡ mixed_of bit s }
{
    if s % 32 == 1 {
        awkward(s / 32)
    } else {
        noisy(bit, s)
    }
}

impl Kind {
    // The one place that reads a kind's number. Any is taken: those above 4 count as 5.
    #[tactic(auto, unfolding(crate::specs::Kinds::kind_of))]
    fn of(kind: usize) -> Kind
        ensures { result ≡ kind_of kind }
    {
        match kind {
            0 => Kind::Signs,
            1 => Kind::Levels,
            2 => Kind::Tenth,
            3 => Kind::Awkward,
            4 => Kind::Noise,
            _ => Kind::Mixed,
        }
    }

    // The reading of a bit in a state of the generator. Every byte but 0 is a one.
    fn reading(self, bit: u8, s: usize) -> f32
        ensures { result ≡ reading_by self bit s }
    {
        match self {
            Kind::Signs => turned((bit != 0) != (s % 64 == 1), 1.0),
            Kind::Levels => turned((bit != 0) != (s % 16 == 1), level(s / 16)),
            Kind::Tenth => turned((bit != 0) != (s % 16 == 1), 0.1),
            Kind::Awkward => awkward(s / 16),
            Kind::Noise => noisy(bit, s),
            Kind::Mixed => mixed(bit, s),
        }
    }
}

// Fills a slice with the readings of a word; bits that it lacks count as 0. The kind is a number, as any is taken.
pub fn fill_readings(kind: usize, seed: usize, bits: &[u8], out: &mut [f32])
    ensures { out.new ≡ readings_of kind seed bits.now (length out.old) }
{
    let way = Kind::of(kind);
    let mut state = seed;
    for (i, x) in out.iter_mut().enumerate() {
        state = next_state(state);
        let bit = bits.get(i).copied().unwrap_or(0);
        *x = way.reading(bit, state);
    }
}
