// The decode record, and what a read tells. Both are plain, so that a host may keep them: what start did not give, the calls refuse.
use ldpc::Code;

// A decode under way: its code, the iterations done, and whether the last of them converged.
#[derive(Clone, Copy, Debug, PartialEq, Eq)]
pub struct Decode {
    pub code: Code,
    pub iterations: u16,
    pub converged: bool,
}

// What a read tells beside the word.
#[derive(Clone, Copy, Debug, PartialEq, Eq)]
pub struct DecodeResult {
    pub iterations: u16,
    pub converged: bool,
    pub clean: bool,
}
