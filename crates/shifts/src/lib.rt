//! The shift generator and the choice of shifts. `choose_shifts` is pub only because the crate graph calls it; its callers meet what it
//! requires. Assumes nothing else.
#![tactic(auto)]

mod biases;
mod generator;
mod place;
mod placed;
mod search;
mod weight_list;
mod weights;

pub use generator::{draw_of, next_state};
pub use place::choose_shifts;
