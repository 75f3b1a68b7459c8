// The word that a read writes: the decisions in transmitted order, and whether they are a codeword.
#![tactic(auto)]

ghost use Rattle.std.specs.Prelude.{◌≡◌, ◌&&◌, ℕ, ◌+◌, ◌≤◌, eqb, length};
ghost use Rattle.laws.specs.Floats.{negative};
ghost use Rattle.matrix.specs.Encoding.{bit};
ghost use Rattle.bits.specs.Sums.{Bits};
ghost use Rattle.ldpc.specs.Code.{work_of};
ghost use Rattle.coder.specs.Calls.{unsatisfied_of};
ghost use Rattle.word.specs.Word.{decisions_of, Decided, word_of};

use ldpc::ValidCode;
use std::simd::prelude::*;

// The decision on a total.
fn decision(total: f32) -> u8
    ensures { result ≡ bit (negative total) }
{
    u8::from(rule::negative(total))
}

// The decisions on sixteen.
fn decisions(totals: f32x16) -> u8x16
    ensures { result ≡ decisions_of totals }
{
    totals
        .simd_lt(f32x16::splat(0.0))
        .select(i32x16::splat(1), i32x16::splat(0))
        .cast()
}

// Writes the decisions on totals, one by one.
fn decide_singly(totals: &[f32], out: &mut [u8])
    requires { length out.old ≡ length totals.now }
    ensures { out.new ≡ decisions_of totals.now }
{
    for (i, x) in out.iter_mut().enumerate() {
        *x = decision(totals[i]);
    }
}

// Writes sixteen of them, from a place on that does not come after those that are written. The place stands beside the slices, and no
// part of them is lent, as the clause speaks of what stands before it.
fn decide_sixteen(totals: &[f32], at: usize, out: &mut [u8])
    requires room { at + 16 ≤ length totals.now }
    requires same { length out.old ≡ length totals.now }
    ensures { (n : ℕ) → at ≤ n → Decided n totals.now out.old → Decided (at + 16) totals.now out.new }
{
    decisions(lanes::load(totals, at)).copy_to_slice(&mut out[at..]);
}

// Writes all of them, sixteen at a time; the last sixteen go back as far as they must.
fn decide_by_sixteens(totals: &[f32], out: &mut [u8])
    requires long { 16 ≤ length totals.now }
    requires same { length out.old ≡ length totals.now }
    ensures { out.new ≡ decisions_of totals.now }
{
    for i in 0..totals.len() / 16 {
        decide_sixteen(totals, 16 * i, out);
    }
    decide_sixteen(totals, totals.len() - 16, out);
}

// Writes the decisions on totals. Where there are fewer than sixteen, no vector is loaded.
fn decide(totals: &[f32], out: &mut [u8])
    requires { length out.old ≡ length totals.now }
    ensures { out.new ≡ decisions_of totals.now }
{
    if totals.len() >= 16 {
        decide_by_sixteens(totals, out);
    } else {
        decide_singly(totals, out);
    }
}

// The word: the information's decisions, then parity's, which begin past the shortened bits.
#[tactic(auto, unfolding(ldpc::specs::Code::work_of, sizes::specs::Sizes::sizes_of, messages::specs::Memory::bits_of))]
fn write_word(code: ValidCode, work: &[f32], out: &mut [u8])
    requires room { work_of code.code ≤ length work.now }
    requires given { length out.old ≡ code.code.n_tx }
    ensures { out.new ≡ word_of code.code work.now }
{
    let k = code.code.k;
    let end = code.info_end();
    let bits = sizes::sizes_of(code).bits;
    let totals = &work[bits..2 * bits];
    let (info, parity) = out.split_at_mut(k);
    decide(&totals[..k], info);
    decide(&totals[end..], parity);
}

// Whether a decode that converged has written a codeword.
fn is_clean(code: ValidCode, converged: bool, word: &[u8]) -> bool
    requires { Bits word.now }
    ensures { result ≡ (converged && eqb (unsatisfied_of code.code word.now) 0) }
{
    converged && coder::unmet_checks(code, bits::Bits { bytes: word }) == 0
}

// Writes the word, and tells whether it is clean.
pub fn read(code: ValidCode, converged: bool, work: &[f32], out: &mut [u8]) -> bool
    requires room { work_of code.code ≤ length work.now }
    requires given { length out.old ≡ code.code.n_tx }
    ensures value { result ≡ (converged && eqb (unsatisfied_of code.code (word_of code.code work.now)) 0) }
    ensures out_after { out.new ≡ word_of code.code work.now }
{
    write_word(code, work, out);
    is_clean(code, converged, out)
}
