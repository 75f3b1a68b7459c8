// What the functions of the C boundary share: records and answers as plain numbers in lent slices, and the definitions of what
// each call tells. Each exported function tests the answer's size itself: a closure that did the rest after that test would
// borrow what the call writes, and of what a closure wrote nothing is known.
#![tactic(auto)]

mod answers;
mod codes;
mod records;

pub use answers::{ANSWER, Answer, OUTPUT, tell};
pub use codes::{put_rate, work_needed};
pub use records::{CODE, DECODE, code_in, code_numbers, code_of, decode_numbers, decode_of};
