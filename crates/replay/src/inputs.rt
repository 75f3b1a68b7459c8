// Lengths and words that are computed, and what is printed in full.
ghost use Rattle.std.specs.Prelude.{◌≡◌, ◌<◌, length};
ghost use Rattle.refusals.specs.Outcome.{outcome};
ghost use Rattle.coder.specs.Calls.{encode_told, encode_written};
ghost use Rattle.readings.specs.Generator.{random_bits};
ghost use Rattle.replay.specs.Inputs.{spread_length, in_full, flipped};

use ldpc::Code;
use refusals::Refusal;

// A length of the spread.
#[tactic(auto, unfolding(crate::specs::Inputs::spread_length))]
pub fn spread_length(i: usize) -> usize
    requires { i < 77 }
    ensures { result ≡ spread_length i }
{
    if i < 39 {
        return 487 * (i + 1);
    }
    1439 + 1500 * ((i - 39) / 3) + (i - 39) % 3
}

// Changes the bit at a place, where there is one.
#[tactic(auto, unfolding(crate::specs::Inputs::flipped))]
pub fn flip(word: &mut [u8], i: usize)
    ensures { word.new ≡ flipped word.old i }
{
    if i < word.len() {
        word[i] = u8::from(word[i] == 0);
    }
}

// Writes the encoding of the generator's bits, in memory of the right lengths.
pub fn write_encoding(c: Code, seed: usize, info: &mut [u8], word: &mut [u8]) -> Result<(), Refusal>
    ensures result_value { outcome result ≡ encode_told c (random_bits seed (length info.old)) (length word.old) }
    ensures info_after { info.new ≡ random_bits seed (length info.old) }
    ensures word_after { word.new ≡ encode_written c (random_bits seed (length info.old)) word.old }
{
    readings::fill_bits(info, seed);
    coder::encode(c, info, word)
}

// Whether the check lists of a code with so many checks are printed in full.
pub fn in_full(checks: usize) -> bool
    ensures { result ≡ in_full checks }
{
    checks <= 40
}
