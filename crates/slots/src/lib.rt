// Where a slot stands. `slot` requires an offset of a lift, which its callers in the crates of the passes meet.
#![tactic(auto)]

mod edges;

ghost use Rattle.std.specs.Prelude.{◌≡◌, ◌+◌, ◌*◌, ◌<◌, ◌≤◌};

pub use edges::Edges;

// The slot of base edge b at offset t, and the bit of column b at offset t.
pub fn slot(b: u8, z: usize, t: usize) -> usize
    requires { (t < z) × (z ≤ 324) }
    ensures { result ≡ b * z + t }
{
    usize::from(b) * z + t
}

// The place of base edge b in the check rule.
pub fn place(b: u8) -> u32
    ensures { result ≡ b }
{
    u32::from(b)
}
