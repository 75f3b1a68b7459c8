// The biases of a place: for each column with edges on two of its rows, d + 1022 with the draw left out of d. They are collected
// once a place, so that a draw runs through no columns.
ghost use Rattle.std.specs.Prelude.{◌≡◌, ◌+◌, ◌<◌, set};
ghost use Rattle.shifts.specs.Biases.{bias_cost, Held};

use crate::weights::WeightTable;

// A fixed array and how many of it count: there is no heap. Not `Copy`, as it is large.
#[derive(Drop)]
pub struct BiasList {
    pub biases: [u16; 183],
    pub count: usize,
    pub ghost held: { Held biases count },
}

impl BiasList {
    pub fn new() -> BiasList
        ensures { result.count ≡ 0 }
    {
        BiasList {
            biases: [0; 183],
            count: 0,
        }
    }

    pub fn clear(&mut self)
        ensures { (self.new.biases ≡ self.old.biases) × (self.new.count ≡ 0) }
    {
        self.count = 0;
    }

    pub fn push(&mut self, bias: usize)
        requires { (self.old.count < 183) × (bias < 1534) }
        ensures { (self.new.biases ≡ set self.old.biases self.old.count bias) × (self.new.count ≡ self.old.count + 1) }
    {
        // The cast is proved to lose nothing; a `try_from` would need an answer for what cannot be.
        self.biases[self.count] = bias as u16;
        self.count += 1;
    }

    // The penalty of the draw x.
    pub fn penalty(&self, weights: &WeightTable, x: usize) -> usize
        requires { x < 512 }
        ensures { (result ≡ bias_cost self.now.biases self.now.count x) × (result < 200000) }
    {
        let weights = weights.from(x);
        let mut sum = 0;
        for bias in &self.biases[..self.count] {
            sum += usize::from(weights[usize::from(*bias)]);
        }
        sum
    }
}
