// How a word and an answer stand in a line of output.
use crate::sums::checksum;
use refusals::Refusal;
use std::fmt;

// Bits as digits, with nothing between them.
#[derive(Clone, Copy)]
pub struct Bits<'a>(pub &'a [u8]);

// A word of up to `full` bits as it is, a longer one by its checksum.
#[derive(Clone, Copy)]
pub struct Word<'a> {
    pub bits: &'a [u8],
    pub full: usize,
}

impl<'a> fmt::Display for Bits<'a> {
    fn fmt<W: fmt::Write>(&self, f: &mut fmt::Formatter<W>) -> fmt::Result {
        for bit in self.0 {
            write!(f, "{}", u8::from(*bit != 0))?;
        }
        Ok(())
    }
}

impl<'a> fmt::Display for Word<'a> {
    fn fmt<W: fmt::Write>(&self, f: &mut fmt::Formatter<W>) -> fmt::Result {
        if self.bits.len() <= self.full {
            return write!(f, "{}", Bits(self.bits));
        }
        write!(f, "sum {} count {}", checksum(self.bits), self.bits.len())
    }
}

// What a call gives, or its refusal.
#[derive(Clone, Copy)]
pub struct Answer<T>(pub Result<T, Refusal>);

impl<T: fmt::Display> fmt::Display for Answer<T> {
    fn fmt<W: fmt::Write>(&self, f: &mut fmt::Formatter<W>) -> fmt::Result {
        match &self.0 {
            Ok(given) => write!(f, "{given}"),
            Err(refusal) => write!(f, "{refusal}"),
        }
    }
}
