// The parity part of an encoding. It first holds the information sums S_i, then row by row the parity columns: a row of sums is
// taken out as its parity row is put in, and gives the next parity row. What `staircase` requires, its caller `encode` in coder
// meets.
#![tactic(auto)]

ghost use Rattle.std.specs.Prelude.{◌≡◌, length};
ghost use Rattle.ldpc.specs.Code.{checks_of};
ghost use Rattle.stairs.specs.Stairs.{stairs};

use bits::Bits;
use ldpc::CodeGraph;

// Writes the parity columns of the information into the part of the output that begins at k.
pub fn staircase(g: &CodeGraph, info: Bits<'_>, parity: &mut [u8])
    requires { length parity.old ≡ checks_of g.now.code.code }
    ensures { parity.new ≡ stairs g.now.code.code info.entry.bytes.now g.now.graph.shape.m_b }
{
    let z = g.code.code.z;
    let m_b = g.graph.shape.m_b;
    edge_sums::row_sums(g, info, 3 * g.graph.shape.k_b, parity);
    let mut total = [0; 324];
    let mut next = [0; 324];
    bits::total_of(Bits { bytes: parity }, m_b, z, &mut total);
    bits::turn_back(&total, z, &mut next);
    for i in 0..m_b {
        let at = i * z;
        bits::step_row(&mut parity[at..at + z], &mut next, &total, i == m_b / 2);
    }
}
