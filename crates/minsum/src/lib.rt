// One iteration of normalised min-sum over the work memory.
#![tactic(auto)]

ghost use Rattle.std.specs.Prelude.{◌≡◌, ◌<◌, ◌≤◌, length};
ghost use Rattle.messages.specs.Iteration.{iteration};
ghost use Rattle.messages.specs.Regions.{to_bits_of};
ghost use Rattle.ldpc.specs.Code.{code_graph, work_of};
ghost use Rattle.minsum.specs.Rows.{RowDone};

use sizes::Lifted;

// The checks of base row r.
fn row_pass(l: &Lifted, r: usize, factor: f32, to_checks: &[f32], to_bits: &mut [f32])
    requires there { r < l.now.sizes.rows }
    requires long { (length to_checks.now ≡ l.now.sizes.slots) × (length to_bits.old ≡ l.now.sizes.slots) }
    ensures { RowDone factor (code_graph l.now.code.code) l.now.code.code.z r to_checks.now to_bits.old to_bits.new }
{
    checks::check_row(l.row_slots(r), factor, to_checks, to_bits);
}

// What every check sends to its bits.
fn check_pass(l: &Lifted, factor: f32, to_checks: &[f32], to_bits: &mut [f32])
    requires { (length to_checks.now ≡ l.now.sizes.slots) × (length to_bits.old ≡ l.now.sizes.slots) }
    ensures { to_bits.new ≡ to_bits_of factor (code_graph l.now.code.code) l.now.code.code.z to_checks.now }
{
    for r in 0..l.sizes.rows {
        row_pass(l, r, factor, to_checks, to_bits);
    }
}

// One iteration, over the work memory in its four regions.
#[tactic(auto, using(crate::proofs::Iterated::by_regions), unfolding(messages::specs::Regions::memory_of, messages::specs::Regions::numbers_of, messages::specs::Regions::iterated_regions))]
pub fn iterate(l: &Lifted, factor: f32, work: &mut [f32])
    requires { work_of l.now.code.code ≤ length work.old }
    ensures { work.new ≡ iteration factor (code_graph l.now.code.code) l.now.code.code.z work.old }
{
    let s = l.sizes;
    let (channel, rest) = work.split_at_mut(s.bits);
    let (totals, rest) = rest.split_at_mut(s.bits);
    let (to_checks, rest) = rest.split_at_mut(s.slots);
    let (to_bits, _beyond) = rest.split_at_mut(s.slots);
    check_pass(l, factor, to_checks, to_bits);
    by_columns::bit_pass(l, channel, totals, to_checks, to_bits);
}
