// What every pass goes by. Whoever makes one proves its facts.
ghost use Rattle.std.specs.Prelude.{◌≡◌, ◌+◌, ◌*◌, ◌≤◌};
ghost use Rattle.ldpc.specs.Code.{work_of};
ghost use Rattle.lists.specs.Lists.{lists_of};
ghost use Rattle.sizes.specs.Sizes.{sizes_of};

use crate::sizes::Sizes;
use ldpc::ValidCode;
use lists::Lists;

// A code that Choice gives, its sizes, and its lists, which stand in the call's own memory.
#[derive(Clone, Copy, Debug)]
pub struct Lifted<'a> {
    pub code: ValidCode,
    pub sizes: Sizes,
    pub lists: &'a Lists,
    pub ghost sized: { sizes ≡ sizes_of code.code },
    pub ghost columns: { (1 ≤ sizes.info) × (sizes.info ≤ 51) × (3 ≤ sizes.rows) × (sizes.rows ≤ 39) × (sizes.info + sizes.rows ≤ 60) },
    pub ghost bounded: { (sizes.edges ≤ 172) × (sizes.bits ≤ 19440) × (sizes.slots ≤ 55728) },
    pub ghost needed: { 2 * sizes.bits + 2 * sizes.slots ≡ work_of code.code },
    pub ghost listed: { lists.now ≡ lists_of code.code },
}
