// Decoding in grants. A decode is a record that goes in and comes back by value, and the work memory that the
// caller lends with every call. Whatever a call refuses it leaves as it was. Assumes nothing.
#![tactic(auto)]

mod call;
mod grant;
mod read;
mod record;
mod start;

pub use call::decode;
pub use record::{Decode, DecodeResult};
