// Words of bytes that should be bits, and the ones in them.
ghost use Rattle.std.specs.Prelude.{◌≡◌, IfOk, IfErr, IfSome, None, Ok, Err, ◌<◌, leb, length};
ghost use Rattle.std.specs.List.{list_all};
ghost use Rattle.refusals.specs.Outcome.{numbers_of};
ghost use Rattle.bits.specs.Sums.{Bits as AreBits};
ghost use Rattle.bits.specs.Words.{first_not_bit, bits_told, ones_in};

use refusals::Refusal;

// A word of bytes that are bits. Whoever writes one proves that they are.
#[derive(Clone, Copy, Debug)]
pub struct Bits<'a> {
    pub bytes: &'a [u8],
    pub ghost each: { AreBits bytes.now },
}

// Whether no byte is above 1. There is no early end, so that the compiler takes many bytes at a time.
fn all_bits(word: &[u8]) -> bool
    ensures { result ≡ list_all (λ b. leb b 1) word.now }
{
    let mut all = true;
    for i in 0..word.len() {
        all = all & (word[i] <= 1);
    }
    all
}

// The first place with a byte above 1.
fn first_not_bit(word: &[u8]) -> Option<usize>
    ensures place { result ≡ first_not_bit word.now }
    ensures inside { IfSome result (λ p. p < length word.now) }
    ensures none { result ≡ None → AreBits word.now }
{
    if all_bits(word) {
        return None;
    }
    word.iter().position(|b| *b > 1)
}

impl<'a> Bits<'a> {
    // The word, known to be of bits; refusal 6 where it is not.
    pub fn new(bytes: &'a [u8]) -> Result<Bits<'a>, Refusal>
        ensures ok { IfOk result (λ w. (w.bytes.now ≡ bytes.now) × (bits_told bytes.now ≡ Ok tt)) }
        ensures err { IfErr result (λ e. bits_told bytes.now ≡ Err (numbers_of e)) }
    {
        match first_not_bit(bytes) {
            None => Ok(Bits { bytes }),
            Some(place) => Err(Refusal::NotBit {
                place,
                value: usize::from(bytes[place]),
            }),
        }
    }
}

// How many bytes are 1. A loop: by filter and count it takes twice the instructions.
pub fn count_ones(bits: &[u8]) -> usize
    ensures { result ≡ ones_in bits.now }
{
    let mut count = 0;
    for i in 0..bits.len() {
        if bits[i] == 1 {
            count += 1;
        }
    }
    count
}
