// The bit pass column after column. Lengths are asked beside `Lifted`, for the same reason as in totals.
#![tactic(auto)]

ghost use Rattle.std.specs.Prelude.{◌+◌, ◌<◌, ◌≤◌, ◌≡◌, true, length};
ghost use Rattle.messages.specs.Regions.{totals_of, to_checks_of};
ghost use Rattle.ldpc.specs.Code.{code_graph};
ghost use Rattle.by_columns.specs.Columns.{TotalsDone, SentDone};

use sizes::Lifted;
use totals::Column;

// Column v. By LIFT_IS_ONE a lift of 1 has a loop over the columns of its own, down to the arithmetic, that keeps nothing for the
// ways of the longer lifts: the compiler makes `columns`, `column` and `column_pass` once for each of its values.
#[tactic(auto, using(crate::proofs::Lent::column_fits, crate::proofs::Lent::column_ends))]
fn column<const LIFT_IS_ONE: bool>(
    l: &Lifted,
    v: usize,
    channel: &[f32],
    totals: &mut [f32],
    to_checks: &mut [f32],
    to_bits: &[f32],
)
    requires lift { LIFT_IS_ONE ≡ true → l.now.code.code.z ≡ 1 }
    requires there { v < l.now.sizes.info + l.now.sizes.rows }
    requires bits { (length channel.now ≡ l.now.sizes.bits) × (length totals.old ≡ l.now.sizes.bits) }
    requires slots { (length to_checks.old ≡ l.now.sizes.slots) × (length to_bits.now ≡ l.now.sizes.slots) }
    ensures totals_after { TotalsDone (code_graph l.now.code.code) l.now.code.code.z channel.now to_bits.now v totals.old totals.new }
    ensures checks_after { SentDone (code_graph l.now.code.code) l.now.code.code.z channel.now to_bits.now v to_checks.old to_checks.new }
{
    let z = l.code.code.z;
    let from = v * z;
    let column = Column {
        z,
        edges: l.column(v),
        turn: &l.lists.turn[..],
        slots: l.sizes.slots,
    };
    totals::column_pass::<LIFT_IS_ONE>(
        column,
        &channel[from..from + z],
        &mut totals[from..from + z],
        to_checks,
        to_bits,
    );
}

// Every column.
fn columns<const LIFT_IS_ONE: bool>(
    l: &Lifted,
    channel: &[f32],
    totals: &mut [f32],
    to_checks: &mut [f32],
    to_bits: &[f32],
)
    requires lift { LIFT_IS_ONE ≡ true → l.now.code.code.z ≡ 1 }
    requires bits { (length channel.now ≡ l.now.sizes.bits) × (length totals.old ≡ l.now.sizes.bits) }
    requires slots { (length to_checks.old ≡ l.now.sizes.slots) × (length to_bits.now ≡ l.now.sizes.slots) }
    ensures totals_after { totals.new ≡ totals_of (code_graph l.now.code.code) l.now.code.code.z channel.now to_bits.now }
    ensures checks_after { to_checks.new ≡ to_checks_of (code_graph l.now.code.code) l.now.code.code.z channel.now to_bits.now }
{
    for v in 0..l.sizes.info + l.sizes.rows {
        column::<LIFT_IS_ONE>(l, v, channel, totals, to_checks, to_bits);
    }
}

// The totals, and what every bit sends to its checks.
pub fn bit_pass(
    l: &Lifted,
    channel: &[f32],
    totals: &mut [f32],
    to_checks: &mut [f32],
    to_bits: &[f32],
)
    requires bits { (length channel.now ≡ l.now.sizes.bits) × (length totals.old ≡ l.now.sizes.bits) }
    requires slots { (length to_checks.old ≡ l.now.sizes.slots) × (length to_bits.now ≡ l.now.sizes.slots) }
    ensures totals_after { totals.new ≡ totals_of (code_graph l.now.code.code) l.now.code.code.z channel.now to_bits.now }
    ensures checks_after { to_checks.new ≡ to_checks_of (code_graph l.now.code.code) l.now.code.code.z channel.now to_bits.now }
{
    if l.code.code.z == 1 {
        columns::<true>(l, channel, totals, to_checks, to_bits);
    } else {
        columns::<false>(l, channel, totals, to_checks, to_bits);
    }
}
