// The sizes of a code: base rows, information columns (k_b), base edges, the bits of a lifted word (N) and the slots of its
// edges (E).
#[derive(Clone, Copy, Debug, PartialEq, Eq)]
pub struct Sizes {
    pub rows: usize,
    pub info: usize,
    pub edges: usize,
    pub bits: usize,
    pub slots: usize,
}
