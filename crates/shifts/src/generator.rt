// The shift generator.
ghost use Rattle.std.specs.Prelude.{◌≡◌, ◌*◌, ◌%◌, ◌^◌};
ghost use Rattle.shifts.specs.Generator.{next_state, draw_of};

const MULTIPLIER: u64 = 6364136223846793005;

const INCREMENT: u64 = 1442695040888963407;

// a * b modulo 2^64, from halves of 32 bits; the product of the high halves falls away. In parts, and not std's, by a rule of the
// project.
fn wrapping_mul(a: u64, b: u64) -> u64
    ensures { result ≡ a * b % 2 ^ 64 }
{
    let a_low = a % 4294967296;
    let a_high = a / 4294967296;
    let b_low = b % 4294967296;
    let b_high = b / 4294967296;
    let cross = ((a_high * b_low) % 4294967296 + (a_low * b_high) % 4294967296) % 4294967296;
    std::num::wrapping_add_u64(a_low * b_low, cross * 4294967296)
}

// A step of the generator.
pub fn next_state(state: u64) -> u64
    ensures { result ≡ next_state state }
{
    std::num::wrapping_add_u64(wrapping_mul(state, MULTIPLIER), INCREMENT)
}

// The number that a state draws.
pub fn draw_of(state: u64) -> u16
    ensures { result ≡ draw_of state }
{
    // below 512, so the cast loses nothing
    (state / 8589934592 % 512) as u16
}
