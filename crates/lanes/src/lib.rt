// Numbers that follow one another, as vectors: loaded and stored. N is a power of two up to 64,
// as a vector's number of lanes is. What these functions require, their callers in convergence, checks, segments and word meet.
#![tactic(auto)]

ghost use Rattle.std.specs.Prelude.{◌≡◌, ℕ, ◌+◌, ◌<◌, ◌≤◌, length, get_or};
ghost use Rattle.std.specs.Float.{nan};
ghost use Rattle.laws.specs.Written.{tabulate, Written};

use std::simd::prelude::*;

// The numbers from `at` on. The place stands beside the slice, here and below, since what is proved of a block speaks of the whole.
pub fn load<const N: usize>(work: &[f32], at: usize) -> Simd<f32, N>
    requires { at + N ≤ length work.now }
    ensures { result ≡ tabulate (λ j. get_or work.now (at + j) nan) N }
{
    Simd::from_slice(&work[at..])
}

// Z numbers from `at` on, in the first lanes. What the others hold counts for nothing.
pub fn load_some<const Z: usize, const N: usize>(work: &[f32], at: usize) -> Simd<f32, N>
    requires { (at + Z ≤ length work.now) × (Z ≤ N) }
    ensures { (j : ℕ) → j < Z → get_or result j nan ≡ get_or work.now (at + j) nan }
{
    let mut lanes = [0.0; N];
    lanes[..Z].copy_from_slice(&work[at..at + Z]);
    Simd::from_array(lanes)
}

// Puts a block to the places from `at` on.
pub fn store<const N: usize>(work: &mut [f32], at: usize, block: Simd<f32, N>)
    requires { at + N ≤ length work.old }
    ensures { Written nan at (λ j. j < N) (λ j. get_or block.entry j nan) work.old work.new }
{
    block.copy_to_slice(&mut work[at..]);
}

// Puts the first Z lanes of a block to the places from `at` on.
pub fn store_some<const Z: usize, const N: usize>(work: &mut [f32], at: usize, block: Simd<f32, N>)
    requires { (at + Z ≤ length work.old) × (Z ≤ N) }
    ensures { Written nan at (λ j. j < Z) (λ j. get_or block.entry j nan) work.old work.new }
{
    let lanes = block.to_array();
    for j in 0..Z {
        work[at + j] = lanes[j];
    }
}
