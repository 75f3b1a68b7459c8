// Builds the 18 base graphs from their seeds and prints a line for each: the family, the rate, how many columns differ from the
// table's, and the four-cycles at the lifts 2, 8, 32, 128 and 324 that the Rust's tables.rs reports. The file stdout was written
// by the oracle. Assumes nothing.
#![tactic(auto)]

mod compared;

ghost use Rattle.std.specs.Prelude.{◌≡◌, ◌≤◌};
ghost use Rattle.rebuild.specs.Compared.{table_seed};

use columns::Columns;
use readings::Result;
use tables::BaseGraph;

const LIFTS: [usize; 5] = [2, 8, 32, 128, 324];

// The seed of the graph of a rate on n_b base columns. By `as`, since the library has no `From` of a usize.
#[tactic(auto, unfolding(crate::specs::Compared::table_seed))]
fn table_seed(rate: usize, n_b: usize) -> u64
    requires { (rate ≤ 5) × (n_b ≤ 60) }
    ensures { result ≡ table_seed rate n_b }
{
    (0x5EED0000 + 977 * rate + n_b) as u64
}

// The places of 51 information columns, the most that a graph of the table has.
const MOST: usize = 153;

// Builds the graph of a table's sizes anew and prints how it differs. The percent and the seed are the table's.
fn print_built(rt: &impl Print, table: &BaseGraph, percent: usize, seed: u64) -> Result<()>
    requires { table.now.shape.k_b ≤ 51 }
{
    let n_b = table.shape.n_b;
    let count = table.shape.k_b;
    let n = 3 * count;
    let mut rows = [0; MOST];
    let mut shifts = [0; MOST];
    graph::build(n_b, percent, seed, &mut rows[..n], &mut shifts[..n])?;
    let built = Columns {
        count,
        rows: &rows[..n],
        shifts: &shifts[..n],
    };
    let stored = Columns {
        count,
        rows: &table.rows[..n],
        shifts: &table.shifts[..n],
    };
    print!(rt;
        " differ {} cycles",
        compared::columns_differ(&built, &stored)
    )?;
    for z in LIFTS {
        let cycles = graph::four_cycles(n_b, count, built.rows, built.shifts, z)?;
        print!(rt; " {cycles}")?;
    }
    println!(rt;)?;
    Ok(())
}

// The graph of a rate and a family, at 85, 75, 65, 55, 45 or 35 percent. The family is a number, as the table's calls take any.
#[tactic(auto, using(tables::proofs::Sizes::shaped), unfolding(tables::specs::Graph::graph_of))]
fn print_graph(rt: &impl Print, rate: usize, family: usize) -> Result<()>
    requires { rate ≤ 5 }
{
    let table = tables::graph_of(rate, family);
    let seed = table_seed(rate, table.shape.n_b);
    print!(rt; "{family} {rate}")?;
    print_built(rt, &table, 85 - 10 * rate, seed)
}

fn main(rt: HostRuntime) -> Result<()> {
    for family in 0..3 {
        for rate in 0..6 {
            print_graph(&rt, rate, family)?;
        }
    }
    Ok(())
}
