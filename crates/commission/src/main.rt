// Prints the commissioning table in its order, with a star on the rows that are starred there. The file stdout was written by
// the oracle, which holds the Rust's answers to what the table says.
#![tactic(auto)]

mod choice;
mod decodes;

use choice::Choice;
use ldpc::Code;
use readings::{Bits, Result};

// The rows of the choice: the star, the rate and n_tx. Between the two lists stands the row of a code that is to be another
// rate's.
const CHOICES: [(&str, usize, usize); 10] = [
    ("*", 0, 3),
    ("*", 0, 4),
    ("*", 0, 9),
    ("*", 0, 10),
    ("*", 4, 10),
    ("*", 4, 11),
    ("", 4, 12),
    ("", 5, 20),
    ("*", 5, 21),
    ("*", 5, 22),
];

const LONG_CHOICES: [(&str, usize, usize); 3] = [("", 0, 61), ("", 0, 19440), ("", 0, 19441)];

// The rows of encodings: the rate, n_tx, which is 22 at most, and the information.
const ENCODINGS: [(usize, usize, &[u8]); 3] = [
    (5, 10, &[1, 0, 0]),
    (5, 10, &[0, 1, 0]),
    (5, 22, &[1]),
];

fn print_choices(rt: &impl Print, rows: &[(&str, usize, usize)]) -> Result<()> {
    for &(star, rate, n_tx) in rows {
        println!(rt; "{star}{}", Choice { rate, n_tx })?;
    }
    Ok(())
}

fn print_encodings(rt: &impl Print) -> Result<()> {
    for (rate, n_tx, info) in ENCODINGS {
        let mut word = [0; 22];
        let word = &mut word[..n_tx.min(22)];
        coder::encode(Code::new(rate, n_tx)?, info, word)?;
        println!(rt; "*({rate},{n_tx}) {} gives {}", Bits(info), Bits(word))?;
    }
    Ok(())
}

// Of two columns of a graph with 5 base columns.
fn print_four_cycles(rt: &impl Print) -> Result<()> {
    let rows = [0, 1, 2, 0, 1, 2];
    let shifts = [0, 0, 0, 0, 0, 1];
    let at_5 = graph::four_cycles(5, 2, &rows, &shifts, 5)?;
    let at_1 = graph::four_cycles(5, 2, &rows, &shifts, 1)?;
    print!(rt; "columns (0,0)(1,0)(2,0) and (0,0)(1,0)(2,1), n_b 5: ")?;
    println!(rt; "four-cycles at z 5: {at_5}, at z 1: {at_1}")?;
    Ok(())
}

fn main(rt: HostRuntime) -> Result<()> {
    print_choices(&rt, &CHOICES)?;
    println!(rt;
        "{}, as {}",
        Choice { rate: 9, n_tx: 10 },
        Choice { rate: 5, n_tx: 10 }
    )?;
    print_choices(&rt, &LONG_CHOICES)?;
    print_encodings(&rt)?;
    decodes::print_decodes(&rt)?;
    print_four_cycles(&rt)
}
