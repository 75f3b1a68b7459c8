// Encodings, and unsatisfied counts of words. Both of codes of up to 1,000 bits.
ghost use Rattle.std.specs.Prelude.{◌≡◌, ◌/◌, length};
ghost use Rattle.refusals.specs.Outcome.{outcome};
ghost use Rattle.coder.specs.Calls.{unsatisfied_told};
ghost use Rattle.replay.specs.Inputs.{changed, flipped};

use crate::inputs::{flip, write_encoding};
use ldpc::Code;
use readings::{Answer, Word, fill_bits};
use refusals::Refusal;
use std::io;

// How many checks a word does not meet: as it is, with one bit changed, and with three.
#[derive(Clone, Copy)]
struct Counts {
    as_it_is: Result<usize, Refusal>,
    one_changed: Result<usize, Refusal>,
    three_changed: Result<usize, Refusal>,
}

#[tactic(auto, unfolding(crate::specs::Inputs::changed))]
fn changed_counts(c: Code, word: &mut [u8]) -> Counts
    ensures word_after { word.new ≡ changed word.old }
    ensures first { outcome result.as_it_is ≡ unsatisfied_told c word.old }
    ensures middle { outcome result.one_changed ≡ unsatisfied_told c (flipped word.old (length word.old / 3)) }
    ensures last { outcome result.three_changed ≡ unsatisfied_told c word.new }
{
    let n = word.len();
    let as_it_is = coder::unsatisfied(c, word);
    flip(word, n / 3);
    let one_changed = coder::unsatisfied(c, word);
    flip(word, n - n / 4);
    flip(word, 0);
    Counts {
        as_it_is,
        one_changed,
        three_changed: coder::unsatisfied(c, word),
    }
}

fn print_counts(rt: &impl Print, counts: Counts) -> io::Result<()> {
    println!(rt; "encoded {}", Answer(counts.as_it_is))?;
    println!(rt; "flipped {}", Answer(counts.one_changed))?;
    println!(rt; "flipped {}", Answer(counts.three_changed))
}

fn print_encoded(rt: &impl Print, answer: Result<(), Refusal>, word: &[u8]) -> io::Result<()> {
    let shown = answer.map(|_| Word {
        bits: word,
        full: 200,
    });
    println!(rt; "encoding {}", Answer(shown))
}

// The encoding of the generator's bits, its counts, and a refusal: of too many bits, which is refused before the output's
// length is looked at.
pub fn print_encoding(rt: &impl Print, c: Code, seed: usize) -> io::Result<()> {
    let k = c.info_bits();
    let n = c.coded_bits();
    if 1000 < k.max(n) {
        return Ok(());
    }
    let mut info = [0; 1000];
    let mut word = [0; 1000];
    let word = &mut word[..n];
    let answer = write_encoding(c, seed, &mut info[..k], word);
    print_encoded(rt, answer, word)?;
    print_counts(rt, changed_counts(c, word))?;
    let mut out = [0; 1];
    let answer = coder::encode(c, word, &mut out);
    print_encoded(rt, answer, &out)
}

fn unmet(c: Code, word: &[u8]) -> Answer<usize>
    ensures { outcome result.0 ≡ unsatisfied_told c word.now }
{
    Answer(coder::unsatisfied(c, word))
}

// The generator's bits, with ones past n_tx, which do not count: n bits, fewer, none, and all there are.
pub fn print_unsatisfied(rt: &impl Print, c: Code, seed: usize) -> io::Result<()> {
    let n = c.coded_bits();
    if 1000 < n {
        return Ok(());
    }
    let mut word = [1; 1050];
    fill_bits(&mut word[..n], seed);
    println!(rt; "random {}", unmet(c, &word[..n]))?;
    println!(rt; "short {}", unmet(c, &word[..n - n / 4]))?;
    println!(rt; "short {}", unmet(c, &word[..n / 2]))?;
    println!(rt; "short {}", unmet(c, &[]))?;
    println!(rt; "long {}", unmet(c, &word))
}
