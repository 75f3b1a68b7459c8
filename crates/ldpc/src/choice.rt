// The code record, and its choice.
ghost use Rattle.std.specs.Prelude.{◌≡◌, ◌*◌, ◌<◌, ◌≤◌};
ghost use Rattle.refusals.specs.Outcome.{outcome};
ghost use Rattle.ldpc.specs.Choice.{lift_of, family_code, chosen, made};

use refusals::Refusal;
use tables::Shape;

// A code: the rate's index, the transmitted bits, the family (0 large, 1 small, 2 tiny), the lift, the information bits
// and the shortened bits. The record is plain numbers, so that a host may keep it; what Choice did not give is refused by the calls.
#[derive(Clone, Copy, Debug, PartialEq, Eq)]
pub struct Code {
    pub rate: usize,
    pub n_tx: usize,
    pub family: usize,
    pub z: usize,
    pub k: usize,
    pub shortened: usize,
}

// n / n_b rounded up, at least 1.
#[tactic(auto, using(crate::proofs::Lift::lift_covers), unfolding(crate::specs::Choice::lift_of))]
fn lift_for(s: Shape, n: usize) -> usize
    requires { (0 < s.n_b) × (s.n_b ≤ 60) × (n ≤ 19440) }
    ensures value { result ≡ lift_of s n }
    ensures covers { n ≤ result * s.n_b }
    ensures most { result ≤ 19440 }
{
    ((n + s.n_b - 1) / s.n_b).max(1)
}

impl Code {
    // The nominal rates; normalised min-sum's factor; the reading of a bit that is known, a shortened zero.
    pub const RATES: [f32; 6] = [0.85, 0.75, 0.65, 0.55, 0.45, 0.35];

    pub const ALPHA: f32 = 0.75;

    pub const CERTAIN: f32 = 1000000.0;

    // The code of one family, where it serves. The family is a number, as in the record.
    #[tactic(auto, unfolding(crate::specs::Choice::family_code, crate::specs::Choice::serves, crate::specs::Choice::code_of))]
    fn of_family(rate: usize, family: usize, n_tx: usize) -> Option<Code>
        requires { n_tx ≤ 19440 }
        ensures { result ≡ family_code rate family n_tx }
    {
        let s = tables::shape_of(rate, family);
        let z = lift_for(s, n_tx);
        let parity = z * s.m_b;
        if n_tx <= parity {
            return None;
        }
        Some(Code {
            rate,
            n_tx,
            family,
            z,
            k: n_tx - parity,
            shortened: z * s.n_b - n_tx,
        })
    }

    // The code for n_tx transmitted bits at a rate: the first family that serves. A rate above 5 counts as 5.
    #[tactic(auto, unfolding(crate::specs::Choice::chosen, crate::specs::Choice::tried_from, crate::specs::Choice::family_code))]
    pub fn new(rate: usize, n_tx: usize) -> Result<Code, Refusal>
        ensures { outcome result ≡ chosen rate n_tx }
    {
        if n_tx > 19440 {
            return Err(Refusal::TooLong(n_tx));
        }
        let rate = rate.min(5);
        Code::of_family(rate, 0, n_tx)
            .or_else(|| Code::of_family(rate, 1, n_tx))
            .or_else(|| Code::of_family(rate, 2, n_tx))
            .ok_or(Refusal::NoFamily(n_tx))
    }

    // Whether Choice gives this record for its rate and n_tx.
    #[tactic(auto, unfolding(crate::specs::Choice::made, crate::specs::Choice::same_code))]
    pub fn is_made(self) -> bool
        ensures { result ≡ made self }
    {
        Code::new(self.rate, self.n_tx) == Ok(self)
    }
}
