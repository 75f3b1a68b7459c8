// The base edges and the check lists of a code.
ghost use Rattle.std.specs.Prelude.{◌≡◌};
ghost use Rattle.readings.specs.Sums.{sum_step};

use crate::inputs::in_full;
use base_edges::Edge;
use ldpc::Code;
use readings::{Result, checksum, sum_step};
use std::{fmt, io};

// The members of a check, each after a space.
#[derive(Clone, Copy)]
struct Members<'a>(&'a [u32]);

impl<'a> fmt::Display for Members<'a> {
    fn fmt<W: fmt::Write>(&self, f: &mut fmt::Formatter<W>) -> fmt::Result {
        for member in self.0 {
            write!(f, " {member}")?;
        }
        Ok(())
    }
}

fn sum_edge(h: usize, e: Edge) -> usize
    ensures { result ≡ sum_step (sum_step (sum_step h e.row) e.column) e.shift }
{
    sum_step(sum_step(sum_step(h, e.row), e.column), e.shift)
}

// No code has 200 base edges: all are asked for, and some past the last.
pub fn print_edges(rt: &impl Print, c: Code) -> io::Result<()> {
    let count = (0..200).filter(|b| c.base_edge(*b).is_some()).count();
    let sum = (0..200)
        .filter_map(|b| c.base_edge(b))
        .fold(0, |h, e| sum_edge(h, e));
    println!(rt; "edges {sum} count {count}")
}

// Each check, in full or by its checksum: it has fewer than 64 members.
pub fn print_checks(rt: &impl Print, c: Code) -> Result<()> {
    let checks = c.checks();
    for check in 0..checks {
        let mut members = [0; 64];
        let n = coder::check_members(c, check, &mut members)?;
        let members = &members[..n.min(64)];
        if in_full(checks) {
            println!(rt; "list {check}{} count {n}", Members(members))?;
        } else {
            println!(rt; "sum {check} {} count {n}", checksum(members))?;
        }
    }
    Ok(())
}
