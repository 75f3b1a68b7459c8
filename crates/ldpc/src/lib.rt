// The codes of ldpc.rs: the record, its choice, its getters. Check lists, counts and encoding are in the crate coder. Assumes
// nothing.
#![tactic(auto)]

mod choice;
mod getters;
mod graph;
mod valid;

pub use choice::Code;
pub use graph::CodeGraph;
pub use valid::ValidCode;
