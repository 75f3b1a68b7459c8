// The totals of a run, and how they are added up. Assumes nothing.
ghost use Rattle.std.specs.Prelude.{◌≡◌, min};
ghost use Rattle.soak.specs.Totals.{joined, none, counted_read};

use std::fmt;

// What is counted.
#[derive(Clone, Copy, Debug, PartialEq, Eq)]
pub struct Totals {
    pub lists: usize,
    pub iterations: usize,
    pub grants: usize,
    pub refusals: usize,
    pub reads: usize,
    pub converged: usize,
    pub clean: usize,
    pub differences: usize,
}

impl Totals {
    pub fn new() -> Totals
        ensures { result ≡ none }
    {
        Totals {
            lists: 0,
            iterations: 0,
            grants: 0,
            refusals: 0,
            reads: 0,
            converged: 0,
            clean: 0,
            differences: 0,
        }
    }

    // A list has ended, after so many iterations.
    pub fn count_list(&mut self, iterations: u16)
        ensures { self.new ≡ (record self.old { lists = joined self.old.lists 1; iterations = joined self.old.iterations iterations }) }
    {
        self.lists = sum_of(self.lists, 1);
        self.iterations = sum_of(self.iterations, usize::from(iterations));
    }

    pub fn count_grant(&mut self)
        ensures { self.new ≡ (record self.old { grants = joined self.old.grants 1 }) }
    {
        self.grants = sum_of(self.grants, 1);
    }

    pub fn count_refusal(&mut self)
        ensures { self.new ≡ (record self.old { refusals = joined self.old.refusals 1 }) }
    {
        self.refusals = sum_of(self.refusals, 1);
    }

    // A read that was accepted, and what it told.
    pub fn count_read(&mut self, converged: bool, clean: bool)
        ensures { self.new ≡ counted_read converged clean self.old }
    {
        self.reads = sum_of(self.reads, 1);
        self.converged = sum_of(self.converged, usize::from(converged));
        self.clean = sum_of(self.clean, usize::from(clean));
    }

    pub fn count_differences(&mut self, n: usize)
        ensures { self.new ≡ (record self.old { differences = joined self.old.differences n }) }
    {
        self.differences = sum_of(self.differences, n);
    }
}

impl fmt::Display for Totals {
    fn fmt<W: fmt::Write>(&self, f: &mut fmt::Formatter<W>) -> fmt::Result {
        write!(f, "lists {} iterations {} ", self.lists, self.iterations)?;
        write!(f, "grants {} refusals {} ", self.grants, self.refusals)?;
        write!(f, "reads {} converged {} ", self.reads, self.converged)?;
        write!(f, "clean {} differences {}", self.clean, self.differences)
    }
}

// A sum that stays at a million million, which no run reaches, so that none wraps.
pub fn sum_of(a: usize, b: usize) -> usize
    ensures { result ≡ joined a b }
{
    a.saturating_add(b).min(1000000000000)
}

// The limit of an unbroken decode. A sum of grants passes 65,535 only once the decode has converged, and then a lower limit
// changes nothing.
pub fn limit_of(sum: usize) -> u16
    ensures { result ≡ min sum 65535 }
{
    u16::try_from(sum).unwrap_or(u16::MAX)
}
