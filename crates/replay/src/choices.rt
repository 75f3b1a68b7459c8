// The choice of a code, for every rate up to 7: those above 5 count as 5.
use ldpc::Code;
use readings::Answer;
use std::{fmt, io};

// A code as a line shows it: its family, its lift, its information bits and its shortened bits.
#[derive(Clone, Copy)]
struct Choice(Code);

impl fmt::Display for Choice {
    fn fmt<W: fmt::Write>(&self, f: &mut fmt::Formatter<W>) -> fmt::Result {
        let c = self.0;
        write!(f, "{} {} {} {}", c.family, c.z, c.k, c.shortened)
    }
}

pub fn print_rates(rt: &impl Print, n_tx: usize) -> io::Result<()> {
    for rate in 0..8 {
        let choice = Code::new(rate, n_tx).map(|c| Choice(c));
        println!(rt; "choice {rate} {n_tx} {}", Answer(choice))?;
    }
    Ok(())
}
