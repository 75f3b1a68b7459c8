// Graphs of every shape: for each n_b and percent a line with k_b, the checksums of the rows and the shifts that build writes, and
// the four-cycles at five lifts; then four-cycles of computed columns, and refusals. The seed comes from standard input, and the
// state runs on from graph to graph. The file stdout was written by the oracle, from the file stdin. Assumes nothing.
#![tactic(auto)]

mod inputs;
mod refused;

ghost use Rattle.std.specs.Prelude.{◌<◌, ◌≤◌, length, IfOk};

use inputs::Computed;
use readings::{Result, checksum};
use std::io;
use std::io::Read;

const LIFTS: [usize; 5] = [1, 2, 5, 32, 65535];

// The places of 61 information columns, the most that a graph has.
const MOST: usize = 183;

// Builds the graph of a shape and prints its line.
#[tactic(auto, using(crate::proofs::Drawn::few))]
fn print_shape(rt: &impl Print, n_b: usize, percent: usize, seed: u64) -> Result<()> {
    let k_b = graph::information_columns(n_b, percent)?;
    // by `min`, since the check does not see by itself that k_b is at most 61 where the arrays are lent
    let n = (3 * k_b).min(MOST);
    let mut rows = [0; MOST];
    let mut shifts = [0; MOST];
    graph::build(n_b, percent, seed, &mut rows[..n], &mut shifts[..n])?;
    let (rows, shifts) = (&rows[..n], &shifts[..n]);
    print!(rt;
        "{n_b} {percent} {k_b} {} {}",
        checksum(rows),
        checksum(shifts)
    )?;
    for z in LIFTS {
        let cycles = graph::four_cycles(n_b, k_b, rows, shifts, z)?;
        print!(rt; " {cycles}")?;
    }
    println!(rt;)?;
    Ok(())
}

fn print_shapes(rt: &impl Print, seed: u64) -> Result<()> {
    let mut state = seed;
    for n_b in 4..=64 {
        for percent in 0..=100 {
            state = shifts::next_state(state);
            print_shape(rt, n_b, percent, state)?;
        }
    }
    Ok(())
}

// Four-cycles of computed columns.
#[tactic(auto, using(crate::proofs::Drawn::sizes))]
fn print_computed(rt: &impl Print, i: usize) -> Result<()>
    requires { i < 200 }
{
    let n_b = 4 + i * 7 % 61;
    let k_b = 1 + i * 5 % (n_b - 3);
    let z = 1 + i * i % 40;
    let n = 3 * k_b;
    let mut rows = [0; MOST];
    let mut shifts = [0; MOST];
    let computed = Computed {
        m_b: n_b - k_b,
        seed: i + 1,
    };
    computed.fill_columns(&mut rows[..n], &mut shifts[..n]);
    let cycles = graph::four_cycles(n_b, k_b, &rows[..n], &shifts[..n], z)?;
    println!(rt; "{n_b} {k_b} {z} cycles {cycles}")?;
    Ok(())
}

// Reads until the memory is full or the input ends: how many bytes there are.
fn read_input(rt: &impl Input, input: &mut [u8]) -> io::Result<usize>
    ensures { IfOk result (λ n. n ≤ length input.new) }
{
    let mut done = 0;
    while done < input.len() {
        let got = rt.reader().read(&mut input[done..])?;
        if got == 0 {
            return Ok(done);
        }
        done += got;
    }
    Ok(done)
}

fn main(rt: HostRuntime) -> Result<()> {
    let mut input = [0; 16];
    let got = read_input(&rt, &mut input)?;
    print_shapes(&rt, inputs::seed_of(&input[..got]))?;
    for i in 0..200 {
        print_computed(&rt, i)?;
    }
    refused::print_refusals(&rt)
}
