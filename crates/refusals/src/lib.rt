// The refusals of every call, and the tests that make most of them. Assumes nothing.
#![tactic(auto)]

mod tests;

ghost use Rattle.std.specs.Prelude.{◌≡◌};
ghost use Rattle.refusals.specs.Outcome.{numbers_of};

use std::error::Error;
use std::fmt;
pub use tests::{in_range, input, iterations, output, work};

// What a call refuses. Each case holds what its pair needs.
#[derive(Clone, Copy, Debug, PartialEq, Eq)]
pub enum Refusal {
    // 1: no family serves this n_tx
    NoFamily(usize),
    // 2: an n_tx above 19,440
    TooLong(usize),
    // 3: a design value outside its range, and the limit broken
    Design { value: usize, limit: usize },
    // 4: the column and the place in it of a row that is not below m_b or is repeated
    Row { column: usize, place: usize },
    // 5: the input's length
    Input { given: usize, wanted: usize },
    // 6: the first place with a byte above 1, and the byte
    NotBit { place: usize, value: usize },
    // 7: no such check, and the number of checks
    NoCheck { check: usize, checks: usize },
    // 8: the work memory's length
    Work { given: usize, needed: usize },
    // 9: the output's length
    Output { given: usize, wanted: usize },
    // 10: iterations and g together, above 65,535
    Iterations(usize),
    // 11: the rate and n_tx of a code record that Choice does not give
    Record { rate: usize, n_tx: usize },
}

// A refusal's number and its pair.
#[derive(Clone, Copy, Debug, PartialEq, Eq)]
pub struct Numbers {
    pub number: usize,
    pub first: usize,
    pub second: usize,
}

impl From<Refusal> for Numbers {
    ghost from_gives = { λ r n. n ≡ numbers_of r };

    fn from(r: Refusal) -> Numbers {
        let (number, first, second) = match r {
            Refusal::NoFamily(n_tx) => (1, 1, n_tx),
            Refusal::TooLong(n_tx) => (2, n_tx, 19440),
            Refusal::Design { value, limit } => (3, value, limit),
            Refusal::Row { column, place } => (4, column, place),
            Refusal::Input { given, wanted } => (5, given, wanted),
            Refusal::NotBit { place, value } => (6, place, value),
            Refusal::NoCheck { check, checks } => (7, check, checks),
            Refusal::Work { given, needed } => (8, given, needed),
            Refusal::Output { given, wanted } => (9, given, wanted),
            Refusal::Iterations(sum) => (10, sum, 65535),
            Refusal::Record { rate, n_tx } => (11, rate, n_tx),
        };
        Numbers {
            number,
            first,
            second,
        }
    }
}

impl Refusal {
    // By the conversion, where a caller would have to name the type that it wants.
    pub fn numbers(self) -> Numbers
        ensures { result ≡ numbers_of self }
    {
        self.into()
    }
}

// As the programs print it.
impl fmt::Display for Refusal {
    fn fmt<W: fmt::Write>(&self, f: &mut fmt::Formatter<W>) -> fmt::Result {
        let n = self.numbers();
        write!(f, "refused {} {} {}", n.number, n.first, n.second)
    }
}

impl Error for Refusal {}
