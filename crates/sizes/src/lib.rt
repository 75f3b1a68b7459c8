// What every pass of a call goes by: the code, its sizes and its lists, taken once.
#![tactic(auto)]

mod lifted;
mod sizes;

ghost use Rattle.std.specs.Prelude.{◌≡◌, ◌+◌, ◌*◌, ◌<◌, ◌≤◌};
ghost use Rattle.matrix.specs.Edges.{row_edges, ColumnList};
ghost use Rattle.ldpc.specs.Code.{code_graph, work_of};
ghost use Rattle.lists.specs.Lists.{lists_of, blank};
ghost use Rattle.sizes.specs.Sizes.{sizes_of};

use ldpc::ValidCode;
pub use lifted::Lifted;
use lists::Lists;
pub use sizes::Sizes;
use slots::Edges;

#[tactic(auto, unfolding(crate::specs::Sizes::sizes_of, messages::specs::Memory::bits_of, messages::specs::Memory::slots_of, ldpc::specs::Code::work_of))]
pub fn sizes_of(code: ValidCode) -> Sizes
    ensures value { result ≡ sizes_of code.code }
    ensures columns { (1 ≤ result.info) × (result.info ≤ 51) × (3 ≤ result.rows) × (result.rows ≤ 39) × (result.info + result.rows ≤ 60) }
    ensures bounded { (result.edges ≤ 172) × (result.bits ≤ 19440) × (result.slots ≤ 55728) }
    ensures needed { 2 * result.bits + 2 * result.slots ≡ work_of code.code }
{
    let s = code.shape();
    let edges = code.edges();
    Sizes {
        rows: s.m_b,
        info: s.k_b,
        edges,
        bits: s.n_b * code.code.z,
        slots: edges * code.code.z,
    }
}

impl<'a> Lifted<'a> {
    // Of a code and its lists.
    pub fn new(code: ValidCode, lists: &'a Lists) -> Lifted<'a>
        requires { lists.now ≡ lists_of code.code }
        ensures { result.code.code ≡ code.code }
    {
        Lifted {
            code,
            sizes: sizes_of(code),
            lists,
        }
    }

    // Of a code alone: its lists are written to `room`, so that whoever has a code that Choice gives proves nothing of lists.
    pub fn of(code: ValidCode, room: &'a mut Lists) -> Lifted<'a>
        requires { room.old ≡ blank }
        ensures { result.code.code ≡ code.code }
    {
        lists::write_lists(code, room);
        Lifted::new(code, room)
    }

    // The base edges of row r.
    #[tactic(auto, using(crate::proofs::Lent::start_long, crate::proofs::Lent::order_long, crate::proofs::Lent::row_rises, crate::proofs::Lent::row_ends, crate::proofs::Lent::row_part))]
    pub fn row(&self, r: usize) -> &[u8]
        requires { r < self.now.sizes.rows }
        ensures { result.now ≡ row_edges (code_graph self.now.code.code) r }
    {
        let order = &self.lists.order[..];
        let from = usize::from(self.lists.start[r]);
        let end = usize::from(self.lists.start[r + 1]);
        &order[from..end]
    }

    // The same, with their slots at the lift.
    #[tactic(auto, using(crate::proofs::Lent::lift, crate::proofs::Lent::row_within))]
    pub fn row_slots(&self, r: usize) -> Edges<'_>
        requires { r < self.now.sizes.rows }
        ensures listed { result.list.now ≡ row_edges (code_graph self.now.code.code) r }
        ensures sized { (result.z ≡ self.now.code.code.z) × (result.slots ≡ self.now.sizes.slots) }
    {
        Edges {
            z: self.code.code.z,
            list: self.row(r),
            slots: self.sizes.slots,
        }
    }

    // The base edges of column v, in rising row. By a branch: the bounds by `min` take more of a column at a short lift.
    #[tactic(auto, using(crate::proofs::Lent::sorted_long))]
    pub fn column(&self, v: usize) -> &[u8]
        requires { v < self.now.sizes.info + self.now.sizes.rows }
        ensures { ColumnList (code_graph self.now.code.code) v result.now }
    {
        let sorted = &self.lists.sorted[..];
        let k = self.sizes.info;
        if v <= k {
            &sorted[3 * v..3 * v + 3]
        } else {
            &sorted[k + 2 * v + 1..k + 2 * v + 3]
        }
    }
}
