// What a run does to a number, of what stands there and of one or two others. Twins of sum and difference are one by it.
ghost use Rattle.std.specs.Prelude.{◌≡◌, ◌+◌, ◌≤◌, Float, length};
ghost use Rattle.std.specs.Float.Ieee.{add, sub};
ghost use Rattle.std.specs.Float.{binary32};
ghost use Rattle.segments.specs.Combined.{combined_block};

use lanes::load;
use std::simd::prelude::*;

pub trait Operation: Copy {
    ghost op: { Float → Float → Float → Float };

    fn one(self, to: f32, a: f32, b: f32) -> f32
        ensures { result ≡ op to a b };
}

// The same by vectors of N, lane by lane, of the numbers from `at` on: a place and not a part, since the contract is of the whole run.
pub trait Lanewise<const N: usize>: Operation {
    fn block(self, to: &[f32], a: &[f32], b: &[f32], at: usize) -> Simd<f32, N>
        requires { (at + N ≤ length to.now) × (at + N ≤ length a.now) × (at + N ≤ length b.now) }
        ensures { result ≡ combined_block Self.op to.now a.now b.now at N };
}

// A number is added to what stands there.
#[derive(Clone, Copy)]
pub struct Sum;

// What stands there is written over by a difference.
#[derive(Clone, Copy)]
pub struct Difference;

impl Operation for Sum {
    ghost op = { λ to a b. add binary32 to a };

    fn one(self, to: f32, a: f32, _b: f32) -> f32 {
        to + a
    }
}

impl Operation for Difference {
    ghost op = { λ to a b. sub binary32 a b };

    fn one(self, _to: f32, a: f32, b: f32) -> f32 {
        a - b
    }
}

impl<const N: usize> Lanewise<N> for Sum {
    fn block(self, to: &[f32], a: &[f32], _b: &[f32], at: usize) -> Simd<f32, N> {
        load(to, at) + load(a, at)
    }
}

impl<const N: usize> Lanewise<N> for Difference {
    fn block(self, _to: &[f32], a: &[f32], b: &[f32], at: usize) -> Simd<f32, N> {
        load(a, at) - load(b, at)
    }
}
