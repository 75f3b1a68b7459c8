// Comparisons: how many places differ. Assumes nothing.
ghost use Rattle.std.specs.Prelude.{◌≡◌, ◌≤◌, Bool, eqb, length, min};
ghost use Rattle.soak.specs.Compare.{same_number, differing, apart_by};

// A number that is compared by its bits.
pub trait Bitwise: Copy {
    ghost same: { Self → Self → Bool };

    fn same(self, other: Self) -> bool
        ensures { result ≡ same self other };
}

impl Bitwise for u8 {
    ghost same = { eqb };

    fn same(self, other: u8) -> bool {
        self == other
    }
}

// By hand, as `==` has it otherwise: +0 and -0 are not the same, and NaNs are, whatever their bits.
impl Bitwise for f32 {
    ghost same = { same_number };

    #[tactic(auto, using(crate::proofs::Same::nan_same, crate::proofs::Same::nan_other), unfolding(crate::specs::Compare::same_number))]
    fn same(self, other: f32) -> bool {
        if self.is_nan() {
            return other.is_nan();
        }
        if other.is_nan() {
            return false;
        }
        self.to_bits() == other.to_bits()
    }
}

// At how many places that both have two slices differ.
#[tactic(auto, unfolding(crate::specs::Compare::differing))]
fn differing<T: Bitwise>(a: &[T], b: &[T]) -> usize
    ensures value { result ≡ differing T.same a.now b.now }
    ensures bound { result ≤ min (length a.now) (length b.now) }
{
    a.iter().zip(b).filter(|(x, y)| !x.same(**y)).count()
}

// The places of two slices that differ; those that only one has count too.
#[tactic(auto, unfolding(crate::specs::Compare::apart_by))]
pub fn apart<T: Bitwise>(a: &[T], b: &[T]) -> usize
    ensures { result ≡ apart_by T.same a.now b.now }
{
    let n = a.len().min(b.len());
    differing(a, b) + (a.len() - n) + (b.len() - n)
}
