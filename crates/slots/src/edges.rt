// The base edges of a row at a lift. Whoever makes one proves its facts.
ghost use Rattle.std.specs.Prelude.{◌≡◌, ◌+◌, ◌*◌, ◌<◌, ◌≤◌};
ghost use Rattle.slots.specs.Row.{Within};

use crate::slot;

// The base edges of a row, and the slots of the whole graph, among which theirs are.
#[derive(Clone, Copy, Debug)]
pub struct Edges<'a> {
    pub z: usize,
    pub list: &'a [u8],
    pub slots: usize,
    pub ghost lift: { (0 < z) × (z ≤ 324) },
    pub ghost within: { Within z slots list.now },
}

impl Edges<'_> {
    // The slot of base edge b at offset t.
    pub fn slot(&self, b: u8, t: usize) -> usize
        requires { t < self.now.z }
        ensures { result ≡ b * self.now.z + t }
    {
        slot(b, self.z, t)
    }
}
