// What ends a program before its last line. Assumes nothing.
ghost use Rattle.std.specs.Prelude.{◌≡◌};
ghost use Rattle.readings.specs.declared.failure.Failure.TheVariants.{Io, Refused};

use refusals::Refusal;
use std::{fmt, io};

// A write or a read that failed, or a refusal where none is to come. It is shown as what it holds.
#[derive(Drop)]
pub enum Failure {
    Io(io::Error),
    Refused(Refusal),
}

pub type Result<T> = std::result::Result<T, Failure>;

impl From<io::Error> for Failure {
    ghost from_gives = { λ error failure. failure ≡ Io error };

    fn from(error: io::Error) -> Failure {
        Failure::Io(error)
    }
}

impl From<Refusal> for Failure {
    ghost from_gives = { λ refusal failure. failure ≡ Refused refusal };

    fn from(refusal: Refusal) -> Failure {
        Failure::Refused(refusal)
    }
}

impl fmt::Debug for Failure {
    fn fmt<W: fmt::Write>(&self, f: &mut fmt::Formatter<W>) -> fmt::Result {
        match self {
            Failure::Io(error) => write!(f, "{error:?}"),
            Failure::Refused(refusal) => write!(f, "{refusal}"),
        }
    }
}
