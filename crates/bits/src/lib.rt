// What codes do with no code at hand: runs of bits that are bytes, added and turned; the bytes of a word. What a function requires,
// its callers meet, in the crates of codes above. Assumes nothing else.
#![tactic(auto)]

mod rows;
mod sums;
mod words;

pub use rows::{copy_info, step_row, total_of, turn_back};
pub use sums::{add_turned, clipped, differ};
pub use words::{Bits, count_ones};
