// Whether the decisions meet the checks of a base row.
ghost use Rattle.std.specs.Prelude.{◌≡◌, not, ◌+◌, ◌%◌, ◌<◌, ◌≤◌};
ghost use Rattle.laws.specs.Range.{every};
ghost use Rattle.laws.specs.Written.{tabulate};
ghost use Rattle.messages.specs.Memory.{reading};
ghost use Rattle.convergence.specs.Rows.{Joins, bit_joined, decided_at, odd_at};

use crate::eights;
use crate::row::Row;
use slots::slot;
use std::simd::prelude::*;

impl<'a> Row<'a> {
    // Where offset t goes by a turn. Two lines, as `Column::back` of totals, which goes the other way: no word for both is shorter.
    fn turned(&self, t: usize, turn: usize) -> usize
        requires { (t < self.now.z) × (turn < self.now.z) }
        ensures { result ≡ (t + turn) % self.now.z }
    {
        let on = t + turn;
        if on < self.z { on } else { on - self.z }
    }

    // The bit that base edge b joins to offset t. At a lift of 1 it is the column.
    fn bit(&self, t: usize, b: u8) -> usize
        requires offset { t < self.now.z }
        requires edge { Joins self.now b }
        ensures { result ≡ bit_joined self.now t b }
    {
        let b = usize::from(b);
        let column = self.column[b];
        if self.z == 1 {
            return usize::from(column);
        }
        slot(column, self.z, self.turned(t, usize::from(self.turn[b])))
    }

    // The decision on it.
    fn decision(&self, t: usize, b: u8) -> bool
        requires offset { t < self.now.z }
        requires edge { Joins self.now b }
        ensures { result ≡ decided_at self.now t b }
    {
        rule::negative(self.work[self.totals + self.bit(t, b)])
    }

    // Whether the decisions on the bits of the check at offset t add up to an odd number.
    #[tactic(auto, using(crate::proofs::Rows::odd_none, crate::proofs::Rows::odd_more, crate::proofs::Rows::odd_all, laws::proofs::Parity::unlike_xor))]
    fn odd_check(&self, t: usize) -> bool
        requires { t < self.now.z }
        ensures { result ≡ odd_at self.now t }
    {
        let mut odd = false;
        for b in self.edges {
            odd ^= self.decision(t, *b);
        }
        odd
    }

    // The totals that base edge b joins to the eight offsets from t on.
    fn eight(&self, t: usize, b: u8) -> f32x8
        requires offset { t + 8 ≤ self.now.z }
        requires edge { Joins self.now b }
        ensures { result ≡ tabulate (λ j. reading self.now.work.now self.now.totals (bit_joined self.now (t + j) b)) 8 }
    {
        let b = usize::from(b);
        let at = self.totals + slot(self.column[b], self.z, 0);
        eights::turned(self.work, at, self.z, t + usize::from(self.turn[b]))
    }

    // Whether the eight checks at the offsets from t on are met.
    fn met_eight(&self, t: usize) -> bool
        requires { t + 8 ≤ self.now.z }
        ensures { result ≡ every (λ j. not (odd_at self.now (t + j))) 8 }
    {
        let mut odd = mask32x8::splat(false);
        for b in self.edges {
            odd ^= self.eight(t, *b).simd_lt(f32x8::splat(0.0));
        }
        odd.to_bitmask() == 0
    }

    // Whether every check is met, eight at a time; the last eight go back as far as they must.
    fn met_by_eights(&self) -> bool
        requires { 8 ≤ self.now.z }
        ensures { result ≡ every (λ t. not (odd_at self.now t)) self.now.z }
    {
        (0..self.z.div_ceil(8)).all(|i| self.met_eight((8 * i).min(self.z - 8)))
    }

    // The same one by one.
    fn met_singly(&self) -> bool
        ensures { result ≡ every (λ t. not (odd_at self.now t)) self.now.z }
    {
        (0..self.z).all(|t| !self.odd_check(t))
    }

    // Whether every check is met. Where there are fewer than eight, no vector is loaded.
    pub fn is_met(&self) -> bool
        ensures { result ≡ every (λ t. not (odd_at self.now t)) self.now.z }
    {
        if self.z >= 8 {
            self.met_by_eights()
        } else {
            self.met_singly()
        }
    }
}
