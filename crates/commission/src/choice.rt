// A row of the choice, as the table prints it.
ghost use Rattle.std.specs.Prelude.{◌≡◌, cond, eqb, codes};

use ldpc::Code;
use std::fmt;

// A rate and an n_tx that are asked for.
#[derive(Clone, Copy)]
pub struct Choice {
    pub rate: usize,
    pub n_tx: usize,
}

// The family is a number, as records are plain numbers.
fn family_name(family: usize) -> &'static str
    ensures { result.now ≡ cond (eqb family 0) (codes "large") (cond (eqb family 1) (codes "small") (codes "tiny")) }
{
    match family {
        0 => "large",
        1 => "small",
        _ => "tiny",
    }
}

impl fmt::Display for Choice {
    fn fmt<W: fmt::Write>(&self, f: &mut fmt::Formatter<W>) -> fmt::Result {
        write!(f, "({},{}): ", self.rate, self.n_tx)?;
        match Code::new(self.rate, self.n_tx) {
            Ok(c) => write!(
                f,
                "{}, z {}, k {}, shortened {}",
                family_name(c.family),
                c.z,
                c.k,
                c.shortened
            ),
            Err(refusal) => write!(f, "{refusal}"),
        }
    }
}
