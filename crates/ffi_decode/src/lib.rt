// The C boundary of decoding, as include/fuyegbo.h declares it: start, grant and read, and the one call. Every function tests the
// answer's size first, then the records', then calls the library. Assumes of its callers what the header asks: slices that hold
// as many elements as they say, and that do not overlap.
// The first test stands in each function: after a closure that did the rest, nothing would be known of what it wrote.
#![tactic(auto)]

mod decode;
mod grant;
mod read;
mod start;

pub use decode::fuyegbo_decode;
pub use grant::fuyegbo_grant;
pub use read::fuyegbo_read;
pub use start::fuyegbo_start;
