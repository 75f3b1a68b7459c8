// Calls that are refused, with the lengths that they are lent, and the refusal.
use readings::{Answer, Result};

// The rows of two columns of a graph with three base rows; the last is repeated.
const ROWS: [u8; 7] = [0, 1, 2, 1, 2, 1, 0];

// n_b and the percent.
const COLUMNS: [(usize, usize); 3] = [(3, 0), (65, 101), (64, 101)];

// n_b, k_b, and the length of the rows.
const GROWTHS: [(usize, usize, usize); 4] = [(3, 1, 3), (5, 0, 3), (5, 3, 6), (5, 2, 7)];

// No call is lent more rows or shifts.
const MOST: usize = 7;

// The percent, and the lengths of the rows and the shifts.
const BUILDS: [(usize, usize, usize); 3] = [(101, 0, 0), (50, 7, 7), (50, 6, 7)];

fn print_columns(rt: &impl Print) -> Result<()> {
    for (n_b, percent) in COLUMNS {
        let answer = Answer(graph::information_columns(n_b, percent));
        println!(rt; "columns {n_b} {percent}: {answer}")?;
    }
    Ok(())
}

fn print_growths(rt: &impl Print) -> Result<()> {
    for (n_b, k_b, room) in GROWTHS {
        let mut rows = [0; MOST];
        let rows = &mut rows[..room.min(MOST)];
        let answer = Answer(graph::peg(n_b, k_b, rows).map(|()| "done"));
        println!(rt; "peg {n_b} {k_b} of {room}: {answer}")?;
    }
    Ok(())
}

fn print_shifts(rt: &impl Print) -> Result<()> {
    for (rows, room) in [(&ROWS[..5], 5), (&ROWS[..6], 5), (&ROWS[..6], 6)] {
        let mut shifts = [0; MOST];
        let shifts = &mut shifts[..room.min(MOST)];
        let answer = Answer(graph::assign_shifts(5, 2, rows, 1, shifts).map(|()| "done"));
        println!(rt; "shifts 5 2 of {} and {room}: {answer}", rows.len())?;
    }
    Ok(())
}

fn print_builds(rt: &impl Print) -> Result<()> {
    for (percent, n, room) in BUILDS {
        let mut rows = [0; MOST];
        let mut shifts = [0; MOST];
        let rows = &mut rows[..n.min(MOST)];
        let shifts = &mut shifts[..room.min(MOST)];
        let answer = Answer(graph::build(5, percent, 1, rows, shifts).map(|()| "done"));
        println!(rt; "build 5 {percent} of {n} and {room}: {answer}")?;
    }
    Ok(())
}

// The shifts are all 0.
fn print_cycles(rt: &impl Print) -> Result<()> {
    let (five, six) = (&ROWS[..5], &ROWS[..6]);
    let shifts = [0; 6];
    for (rows, shifts, z) in [
        (five, &shifts[..5], 0),
        (six, &shifts[..5], 65536),
        (six, &shifts[..5], 1),
        (six, &shifts, 1),
    ] {
        let answer = Answer(graph::four_cycles(5, 2, rows, shifts, z));
        println!(rt;
            "cycles 5 2 of {} and {} at {z}: {answer}",
            rows.len(),
            shifts.len()
        )?;
    }
    Ok(())
}

pub fn print_refusals(rt: &impl Print) -> Result<()> {
    print_columns(rt)?;
    print_growths(rt)?;
    print_shifts(rt)?;
    print_builds(rt)?;
    print_cycles(rt)
}
