//! Graph design after the decoder: the rows of a base graph's information columns by edge growth, their shifts, and the count of
//! four-cycles. Information columns are lent as 3 * k_b row bytes and as many 16-bit shifts. Whatever a call refuses it leaves as it was.
//! Assumes nothing.
#![tactic(auto)]

mod assign;
mod count;
mod design;
mod rate;
mod rows;
mod tests;

pub use assign::assign_shifts;
pub use count::four_cycles;
pub use design::build;
pub use rate::information_columns;
pub use rows::peg;
