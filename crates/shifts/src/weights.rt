// The table of weights: what each d = up - down costs. Shifts are below 512, so d lies between -1022 and 1022, and is held as
// d + 1022.
ghost use Rattle.std.specs.Prelude.{◌≡◌, ℕ, ◌+◌, ◌<◌, length, slice_index};
ghost use Rattle.shifts.specs.Shifts.{weight};
ghost use Rattle.shifts.specs.Biases.{Weights};

use crate::weight_list::WEIGHTS;

#[derive(Clone, Copy)]
pub struct WeightTable {
    weights: &'static [u16; 2045],
    ghost weighs: { Weights weights.now },
}

impl WeightTable {
    // The one table, which is a constant: nothing is filled at a call.
    pub fn new() -> WeightTable {
        WeightTable { weights: &WEIGHTS }
    }

    // What each d from a place on costs.
    pub fn from(self, i: usize) -> &'static [u16]
        requires { i < 2045 }
        ensures long { i + length result.now ≡ 2045 }
        ensures costs { (k : ℕ) → i + k < 2045 → slice_index result.now k ≡ weight (i + k) 1022 }
    {
        let weights = self.weights;
        &weights[i..]
    }
}
