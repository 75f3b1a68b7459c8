// The inputs of a list: the readings of an encoding of the generator's bits, of a kind that goes by the seed; and the lengths
// past 300. Assumes nothing.
ghost use Rattle.std.specs.Prelude.{◌≡◌, ◌<◌, ◌%◌, length};
ghost use Rattle.coder.specs.Calls.{encode_written};
ghost use Rattle.readings.specs.Generator.{random_bits};
ghost use Rattle.readings.specs.Kinds.{readings_of};
ghost use Rattle.soak.specs.Inputs.{spread_length};

use ldpc::Code;

pub fn fill_inputs(c: Code, seed: usize, info: &mut [u8], word: &mut [u8], rx: &mut [f32])
    ensures info_after { info.new ≡ random_bits seed (length info.old) }
    ensures word_after { word.new ≡ encode_written c (random_bits seed (length info.old)) word.old }
    ensures rx_after { rx.new ≡ readings_of (seed % 6) seed (encode_written c (random_bits seed (length info.old)) word.old) (length rx.old) }
{
    readings::fill_bits(info, seed);
    // A refused encoding leaves the word as it was.
    let _ = coder::encode(c, info, word);
    readings::fill_readings(seed % 6, seed, word, rx);
}

pub fn spread_length(i: usize) -> usize
    requires { i < 25 }
    ensures { result ≡ spread_length i }
{
    1000 - 29 * i
}
