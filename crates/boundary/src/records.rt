// Records read from numbers, and written to them.
ghost use Rattle.std.specs.Prelude.{◌≡◌, ◌≤◌, length, Ok};
ghost use Rattle.refusals.specs.Outcome.{outcome};
ghost use Rattle.boundary.specs.Answers.{code_in, code_numbers, decode_numbers, if_code, if_decode};

use decoder::Decode;
use ldpc::Code;
use refusals::Refusal;

// Functions, since neither the records nor slices are of this crate, which may therefore write no `From` or `TryFrom` between them.

// How many numbers a code record has, and a decode record.
pub const CODE: usize = 6;

pub const DECODE: usize = 8;

// The code record in the first six numbers.
#[tactic(auto, unfolding(crate::specs::Answers::code_in))]
pub fn code_in(numbers: &[usize]) -> Code
    requires { 6 ≤ length numbers.now }
    ensures { result ≡ code_in numbers.now }
{
    Code {
        rate: numbers[0],
        n_tx: numbers[1],
        family: numbers[2],
        z: numbers[3],
        k: numbers[4],
        shortened: numbers[5],
    }
}

// The code record in six numbers.
pub fn code_of(numbers: &[usize]) -> Result<Code, Refusal>
    ensures { outcome result ≡ if_code numbers.now (λ c. Ok c) }
{
    refusals::input(numbers.len(), CODE)?;
    Ok(code_in(numbers))
}

// The decode record in eight numbers, whose last two are iterations of 16 bits and a bit.
#[tactic(auto, unfolding(crate::specs::Answers::code_in, crate::specs::Answers::decode_in, crate::specs::Answers::is_decode))]
pub fn decode_of(numbers: &[usize]) -> Result<Decode, Refusal>
    ensures { outcome result ≡ if_decode numbers.now (λ d. Ok d) }
{
    let [rate, n_tx, _, _, _, _, iterations, converged] = *numbers else {
        return Err(Refusal::Input {
            given: numbers.len(),
            wanted: DECODE,
        });
    };
    match (u16::try_from(iterations), converged) {
        (Ok(iterations), 0 | 1) => Ok(Decode {
            code: code_in(numbers),
            iterations,
            converged: converged == 1,
        }),
        _ => Err(Refusal::Record { rate, n_tx }),
    }
}

pub fn code_numbers(c: Code) -> [usize; CODE]
    ensures { result ≡ code_numbers c }
{
    [c.rate, c.n_tx, c.family, c.z, c.k, c.shortened]
}

pub fn decode_numbers(d: Decode) -> [usize; DECODE]
    ensures { result ≡ decode_numbers d }
{
    let [rate, n_tx, family, z, k, shortened] = code_numbers(d.code);
    let iterations = usize::from(d.iterations);
    let converged = usize::from(d.converged);
    [rate, n_tx, family, z, k, shortened, iterations, converged]
}
