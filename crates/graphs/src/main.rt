// Prints the 18 base graphs, through the table crate's calls: a line with the family, the rate, n_b, k_b and m_b, then a
// line for each information column with its three rows and shifts. The file stdout was written by the oracle.
#![tactic(auto)]

ghost use Rattle.std.specs.Prelude.{◌≡◌, cond, ◌%◌, ◌≤◌, eqb};

use std::io;
use tables::BaseGraph;

// What stands after pair b: a line ends with a column's third.
fn after_pair(b: usize) -> char
    ensures { result ≡ cond (eqb (b % 3) 2) 10 32 }
{
    if b % 3 == 2 { '\n' } else { ' ' }
}

fn print_columns(rt: &impl Print, g: &BaseGraph) -> io::Result<()>
    requires { g.now.shape.k_b ≤ 51 }
{
    for b in 0..3 * g.shape.k_b {
        print!(rt; "{} {}{}", g.rows[b], g.shifts[b], after_pair(b))?;
    }
    Ok(())
}

// The family is a number, as the table's calls take any.
fn print_graph(rt: &impl Print, rate: usize, family: usize) -> io::Result<()> {
    let g = tables::graph_of(rate, family);
    let s = g.shape;
    println!(rt; "{family} {rate} {} {} {}", s.n_b, s.k_b, s.m_b)?;
    print_columns(rt, &g)
}

fn main(rt: HostRuntime) -> io::Result<()> {
    for family in 0..3 {
        for rate in 0..6 {
            print_graph(&rt, rate, family)?;
        }
    }
    Ok(())
}
