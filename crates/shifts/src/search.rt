// The search of a shift: draws from the generator, each with its penalty.
ghost use Rattle.std.specs.Prelude.{◌≡◌, ℕ, List};
ghost use Rattle.shifts.specs.Shifts.{penalty};
ghost use Rattle.shifts.specs.Biases.{bias_cost, Follows};

use crate::biases::BiasList;
use crate::generator::{draw_of, next_state};
use crate::weights::WeightTable;

// More than any penalty: at most 183 weights of at most 1000 add up to one. An `Option` of the best would be no plainer: the first draw
// is taken by the same test as the others.
const WORST: usize = 200000;

// The first draw of least penalty of 256, and the generator's state after the draws; penalty 0 ends the search. Not inlined: where the
// compiler knows which table is lent, it works out the table's place anew at each weight, and a draw takes 15 in 100 longer.
#[inline(never)]
pub fn search(weights: &WeightTable, biases: &BiasList, from: u64) -> (u16, u64)
    ensures { (rows shifts : List ℕ) → ((x : ℕ) → bias_cost biases.now.biases biases.now.count x ≡ penalty rows shifts x) → Follows rows shifts from result.0 result.1 }
{
    let mut state = from;
    let mut best = WORST;
    let mut shift = 0;
    'draws: for _ in 0..256usize {
        state = next_state(state);
        let x = draw_of(state);
        let p = biases.penalty(weights, usize::from(x));
        if p == 0 {
            return (x, state);
        }
        if p < best {
            best = p;
            shift = x;
        }
    }
    (shift, state)
}
