// A checksum of numbers of any width, which stands in a line for what is too long to print.
ghost use Rattle.std.specs.Prelude.{◌≡◌, ◌+◌, ◌*◌, ◌%◌, ℕ};
ghost use Rattle.readings.specs.Sums.{checksum_by};

// A number that widens to a usize: by a cast for a u32, of which the library has no `From`.
pub trait Wide: Copy {
    ghost wide: { Self → ℕ };

    fn wide(self) -> usize
        ensures { result ≡ wide self };
}

impl Wide for u8 {
    ghost wide = { λ x. x };

    fn wide(self) -> usize {
        usize::from(self)
    }
}

impl Wide for u16 {
    ghost wide = { λ x. x };

    fn wide(self) -> usize {
        usize::from(self)
    }
}

impl Wide for u32 {
    ghost wide = { λ x. x };

    fn wide(self) -> usize {
        self as usize
    }
}

// A step of the checksum.
pub fn sum_step(h: usize, x: usize) -> usize
    ensures { result ≡ (h % 65521 * 31 + x % 65521) % 65521 }
{
    ((h % 65521) * 31 + x % 65521) % 65521
}

// The checksum of numbers.
#[tactic(auto, unfolding(crate::specs::Sums::checksum_by))]
pub fn checksum<T: Wide>(xs: &[T]) -> usize
    ensures { result ≡ checksum_by T.wide xs.now }
{
    xs.iter().fold(0, |h, x| sum_step(h, x.wide()))
}
