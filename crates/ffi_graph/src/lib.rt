// The C boundary of graph design, as include/fuyegbo.h declares it: information columns, growth, shifts, whole designs and their
// four-cycles. Every function tests the answer's size first, then calls the library. Assumes of its callers what the header asks:
// slices that hold as many elements as they say, and that do not overlap: rows and shifts are two of them, since C has no struct of
// slices.
// The first test stands in each function: after a closure that did the rest, nothing would be known of what it wrote.
#![tactic(auto)]

mod assign_shifts;
mod build;
mod four_cycles;
mod information_columns;
mod peg;

pub use assign_shifts::fuyegbo_assign_shifts;
pub use build::fuyegbo_build;
pub use four_cycles::fuyegbo_four_cycles;
pub use information_columns::fuyegbo_information_columns;
pub use peg::fuyegbo_peg;
