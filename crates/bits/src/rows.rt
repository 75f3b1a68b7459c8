// Rows of z bits, as an encoding copies, adds and steps through them.
ghost use Rattle.std.specs.Prelude.{◌≡◌, false, ◌+◌, ◌*◌, ◌-◌, ◌%◌, ◌≤◌, eqb, length, get_or};
ghost use Rattle.laws.specs.Range.{xor_sum};
ghost use Rattle.laws.specs.Written.{rewritten};
ghost use Rattle.bits.specs.Rows.{Holds, Stepped};

use crate::sums::{add, differ};
use crate::words::Bits;

// Copies the information to the front of out. A loop, since std's copy is a memmove, which the archive must not ask for.
pub fn copy_info(info: &[u8], out: &mut [u8])
    requires { length info.now ≤ length out.old }
    ensures { out.new ≡ rewritten 0 (length info.now) (λ i. get_or info.now i 0) out.old }
{
    for i in 0..info.len() {
        out[i] = info[i];
    }
}

// T: the sum of m_b rows of z bits, where total begins with z zeros.
pub fn total_of(parity: Bits<'_>, m_b: usize, z: usize, total: &mut [u8])
    requires { (m_b * z ≤ length parity.bytes.now) × (z ≤ length total.old) × Holds z (λ t. false) total.old }
    ensures { Holds z (λ t. xor_sum (λ i. eqb (get_or parity.entry.bytes.now (i * z + t) 0) 1) m_b) total.new }
{
    for i in 0..m_b {
        add(total, &parity.bytes[i * z..i * z + z]);
    }
}

// p_0: T turned back by one, a whole list, where `rotated` of base_edges is of one offset. A loop, as in `copy_info`.
pub fn turn_back(total: &[u8], z: usize, first: &mut [u8])
    requires { (1 ≤ z) × (z ≤ length total.now) × (z ≤ length first.old) }
    ensures { first.new ≡ rewritten 0 z (λ t. get_or total.now ((t + z - 1) % z) 0) first.old }
{
    first[0] = total[z - 1];
    for t in 1..z {
        first[t] = total[t - 1];
    }
}

// Puts the parity row `next` in the place of a row of sums, and makes the parity row after it; at the middle row T is added,
// which is p_0 turned by one.
pub fn step_row(row: &mut [u8], next: &mut [u8], total: &[u8], middle: bool)
    requires { (length row.old ≤ length next.old) × (length row.old ≤ length total.now) }
    ensures { Stepped middle row.old next.old total.now row.new next.new }
{
    for t in 0..row.len() {
        let sum = row[t];
        let p = next[t];
        let extra = if middle { total[t] } else { 0 };
        row[t] = p;
        next[t] = differ(differ(sum, p), extra);
    }
}
