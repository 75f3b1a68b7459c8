// What test programs share: words of pseudo-random bits, readings of a word by a kind and a seed, how words and answers stand in a
// line of output, and what ends a program early. The oracle's driver computes the same. Assumes nothing.
#![tactic(auto)]

mod failure;
mod generator;
mod kinds;
mod sums;
mod words;

pub use failure::{Failure, Result};
pub use generator::{fill_bits, next_state};
pub use kinds::fill_readings;
pub use sums::{Wide, checksum, sum_step};
pub use words::{Answer, Bits, Word};
