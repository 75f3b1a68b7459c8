// The tests that several calls make, each for its refusal.
ghost use Rattle.std.specs.Prelude.{◌≡◌};
ghost use Rattle.refusals.specs.Outcome.{outcome, exact, at_least, in_range, countable};

use crate::Refusal;

// An input must have the wanted length.
pub fn input(given: usize, wanted: usize) -> Result<(), Refusal>
    ensures { outcome result ≡ exact 5 given wanted }
{
    if given != wanted {
        return Err(Refusal::Input { given, wanted });
    }
    Ok(())
}

// An output must have the wanted length.
pub fn output(given: usize, wanted: usize) -> Result<(), Refusal>
    ensures { outcome result ≡ exact 9 given wanted }
{
    if given != wanted {
        return Err(Refusal::Output { given, wanted });
    }
    Ok(())
}

// The work memory must have the needed length, or more.
pub fn work(given: usize, needed: usize) -> Result<(), Refusal>
    ensures { outcome result ≡ at_least 8 given needed }
{
    if given < needed {
        return Err(Refusal::Work { given, needed });
    }
    Ok(())
}

// A design value must be in its range: the limit that it breaks, the lower one first.
pub fn in_range(value: usize, low: usize, high: usize) -> Result<(), Refusal>
    ensures { outcome result ≡ in_range value low high }
{
    if value < low {
        return Err(Refusal::Design { value, limit: low });
    }
    if value > high {
        return Err(Refusal::Design { value, limit: high });
    }
    Ok(())
}

// The iterations done and granted together must be a number of 16 bits.
pub fn iterations(sum: usize) -> Result<(), Refusal>
    ensures { outcome result ≡ countable sum }
{
    if sum > 65535 {
        return Err(Refusal::Iterations(sum));
    }
    Ok(())
}
