// The generator, and words of its bits.
ghost use Rattle.std.specs.Prelude.{◌≡◌, length};
ghost use Rattle.readings.specs.Generator.{next_state, random_bits};

// A step of the generator.
pub fn next_state(s: usize) -> usize
    ensures { result ≡ next_state s }
{
    (s % 65537) * 75 % 65537
}

// Fills a word with the generator's bits.
pub fn fill_bits(word: &mut [u8], seed: usize)
    ensures { word.new ≡ random_bits seed (length word.old) }
{
    let mut state = seed;
    for bit in word.iter_mut() {
        state = next_state(state);
        // A cast of what is below 2, where a `try_from` would have an error to take apart.
        *bit = (state % 2) as u8;
    }
}
