// The readings of an encoded word.
ghost use Rattle.std.specs.Prelude.{◌≡◌, length};
ghost use Rattle.readings.specs.Kinds.{readings_of};
ghost use Rattle.decodes.specs.Inputs.{information, sent};

use ldpc::Code;
use readings::{fill_bits, fill_readings};

// Computes the information, its encoding and the encoding's readings, in memory of the right lengths. The kind is a number, as
// the readings' call takes any.
pub fn write_readings(
    c: Code,
    kind: usize,
    seed: usize,
    info: &mut [u8],
    word: &mut [u8],
    rx: &mut [f32],
)
    ensures info_after { info.new ≡ information (length info.old) }
    ensures word_after { word.new ≡ sent c (length info.old) word.old }
    ensures rx_after { rx.new ≡ readings_of kind seed (sent c (length info.old) word.old) (length rx.old) }
{
    fill_bits(info, 4321);
    // A refused encoding leaves the word as it was.
    let _ = coder::encode(c, info, word);
    fill_readings(kind, seed, word, rx);
}
