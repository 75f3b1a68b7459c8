// The C boundary of codes, as include/fuyegbo.h declares it: their choice and its sizes, check lists, counts and encoding. Every
// function tests the answer's size first, then the records', then calls the library. Assumes of its callers what the header asks:
// slices that hold as many elements as they say, and that do not overlap.
// The first test stands in each function: after a closure that did the rest, nothing would be known of what it wrote.
#![tactic(auto)]

mod check_members;
mod code;
mod effective_rate;
mod encode;
mod unsatisfied;
mod work_needed;

pub use check_members::fuyegbo_check_members;
pub use code::fuyegbo_code;
pub use effective_rate::fuyegbo_effective_rate;
pub use encode::fuyegbo_encode;
pub use unsatisfied::fuyegbo_unsatisfied;
pub use work_needed::fuyegbo_work_needed;
