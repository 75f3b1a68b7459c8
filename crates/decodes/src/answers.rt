// Decodes by the one call, and their lines.
use crate::inputs::write_readings;
use decoder::DecodeResult;
use ldpc::Code;
use readings::{Answer, Word};
use std::{fmt, io};

const LIMITS: [u16; 5] = [0, 1, 2, 5, 50];

// A decode's record and its word as a line shows them.
#[derive(Clone, Copy)]
struct Decoded<'a> {
    record: DecodeResult,
    word: &'a [u8],
}

impl<'a> fmt::Display for Decoded<'a> {
    fn fmt<W: fmt::Write>(&self, f: &mut fmt::Formatter<W>) -> fmt::Result {
        let word = Word {
            bits: self.word,
            full: 78,
        };
        let converged = u8::from(self.record.converged);
        write!(f, "{} {converged} {word}", self.record.iterations)
    }
}

// Codes of up to 1,000 bits: the line of each limit. The kind is a number, as it is printed.
pub fn print_decodes(
    rt: &impl Print,
    c: Code,
    rate: usize,
    kind: usize,
    seed: usize,
) -> io::Result<()> {
    let k = c.info_bits();
    let n = c.coded_bits();
    if 1000 < k.max(n) {
        return Ok(());
    }
    let mut info = [0; 1000];
    let mut word = [0; 1000];
    let mut rx = [0.0; 1000];
    write_readings(c, kind, seed, &mut info[..k], &mut word[..n], &mut rx[..n]);
    for limit in LIMITS {
        // Not 0 beforehand, which is to make no difference.
        let mut work = [-1.0; 7888];
        let mut out = [0; 1000];
        let out = &mut out[..n];
        let answer = decoder::decode(rate, n, &rx[..n], limit, &mut work, out);
        let shown = answer.map(|record| Decoded { record, word: out });
        println!(rt; "decode {rate} {n} {kind} {seed} {limit} {}", Answer(shown))?;
    }
    Ok(())
}
