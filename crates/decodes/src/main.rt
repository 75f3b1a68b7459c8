// Replays decodes of the Rust: for a list of codes, by each kind of readings, with two seeds and five limits, the readings
// of an encoded word are decoded by the one call. One answer a line: the rate, n_tx, the kind, the seed, the limit, the
// iterations, whether it converged, and the word. The inputs are computed here; the file stdout was written by the
// oracle, which computes the same.
#![tactic(auto)]

mod answers;
mod inputs;

use ldpc::Code;
use readings::Result;

// Rates and lengths: five of the tiny family, five of the small one, and ten of the large one with lifts from 1 to 17. A rate
// above 5 counts as 5.
const CODES: [(usize, usize); 20] = [
    (5, 8),
    (5, 10),
    (9, 10),
    (4, 22),
    (5, 22),
    (0, 4),
    (0, 9),
    (2, 21),
    (4, 33),
    (5, 78),
    (0, 10),
    (0, 60),
    (0, 61),
    (5, 60),
    (1, 120),
    (2, 200),
    (3, 307),
    (4, 500),
    (0, 777),
    (3, 1000),
];

const SEEDS: [usize; 2] = [2026, 777];

fn print_code(rt: &impl Print, rate: usize, n_tx: usize) -> Result<()> {
    let c = Code::new(rate, n_tx)?;
    for kind in 0..6 {
        for seed in SEEDS {
            answers::print_decodes(rt, c, rate, kind, seed)?;
        }
    }
    Ok(())
}

fn main(rt: HostRuntime) -> Result<()> {
    for (rate, n_tx) in CODES {
        print_code(&rt, rate, n_tx)?;
    }
    Ok(())
}
