// Replays answers of the Rust: the choice of a code at all short lengths and a spread of longer ones; then, for a list
// of codes, the getters, the base edges, the check lists, encodings and unsatisfied counts. One answer a line, its kind
// first. The inputs are computed here; the file stdout was written by the oracle, which computes the same.
#![tactic(auto)]

mod checks;
mod choices;
mod inputs;
mod words;

use ldpc::Code;
use readings::Result;
use std::io;

// Rates and lengths: ten of the tiny family, nine of the small one, and twelve of the large one with lifts from 1 to 17.
const CODES: [(usize, usize); 31] = [
    (1, 4),
    (2, 5),
    (3, 6),
    (4, 7),
    (5, 8),
    (5, 10),
    (4, 21),
    (4, 22),
    (5, 22),
    (5, 26),
    (0, 4),
    (0, 9),
    (1, 15),
    (2, 21),
    (3, 20),
    (4, 33),
    (4, 66),
    (5, 39),
    (5, 78),
    (0, 10),
    (0, 60),
    (0, 61),
    (1, 120),
    (2, 200),
    (3, 307),
    (1, 400),
    (4, 500),
    (0, 777),
    (2, 960),
    (5, 841),
    (3, 1000),
];

// What the getters answer.
fn print_getters(rt: &impl Print, c: Code) -> io::Result<()> {
    let (n, k, z) = (c.coded_bits(), c.info_bits(), c.lift());
    let (shortened, checks) = (c.shortened_bits(), c.checks());
    let s = c.base_shape();
    print!(rt; "code {} {n} {k} {z} {shortened} {checks} ", c.rate)?;
    println!(rt; "{} {} {}", s.n_b, s.k_b, s.m_b)
}

// All answers of one code.
fn print_code(rt: &impl Print, rate: usize, n_tx: usize) -> Result<()> {
    let c = Code::new(rate, n_tx)?;
    print_getters(rt, c)?;
    checks::print_edges(rt, c)?;
    checks::print_checks(rt, c)?;
    words::print_encoding(rt, c, 2026)?;
    words::print_encoding(rt, c, 777)?;
    words::print_unsatisfied(rt, c, 4321)?;
    Ok(())
}

fn main(rt: HostRuntime) -> Result<()> {
    for n_tx in 0..=400 {
        choices::print_rates(&rt, n_tx)?;
    }
    for i in 0..77 {
        choices::print_rates(&rt, inputs::spread_length(i))?;
    }
    for (rate, n_tx) in CODES {
        print_code(&rt, rate, n_tx)?;
    }
    Ok(())
}
