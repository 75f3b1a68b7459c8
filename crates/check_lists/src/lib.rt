// The transmitted members of a check, found edge by edge. What these functions require, their caller `check_members` in coder
// meets.
#![tactic(auto)]

ghost use Rattle.std.specs.Prelude.{◌≡◌, ◌++◌, ◌<◌, ◌≤◌, length, drop};
ghost use Rattle.laws.specs.Range.{count, collect};
ghost use Rattle.matrix.specs.Edges.{edges};
ghost use Rattle.check_lists.specs.Members.{is_member, member_place, member_at};

use ldpc::CodeGraph;

// The place that base edge b brings to the check, where it is of the check's row and its bit is sent.
fn member_at(g: &CodeGraph, check: usize, b: usize) -> Option<usize>
    requires { b < edges g.now.graph }
    ensures { result ≡ member_at g.now.code.code check b }
{
    let c = g.code.code;
    let e = g.edge(b);
    if e.row != check / c.z {
        return None;
    }
    let v = e.column * c.z + base_edges::rotated(check % c.z, e.shift, c.z);
    if v < c.k {
        return Some(v);
    }
    let info = g.graph.shape.k_b * c.z;
    if v < info {
        return None;
    }
    Some(c.k + (v - info))
}

// How many members a check has.
pub fn count_members(g: &CodeGraph, check: usize, n: usize) -> usize
    requires { n ≤ edges g.now.graph }
    ensures { result ≡ count (is_member g.now.code.code check) n }
{
    let mut count = 0;
    for b in 0..n {
        let m = member_at(g, check, b);
        if let Some(_) = m {
            count += 1;
        }
    }
    count
}

// Writes the members of a check to the front of out.
pub fn write_members(g: &CodeGraph, check: usize, n: usize, out: &mut [u32])
    requires edges { n ≤ edges g.now.graph }
    requires room { count (is_member g.now.code.code check) n ≤ length out.old }
    ensures { out.new ≡ collect (is_member g.now.code.code check) (member_place g.now.code.code check) n ++ drop (count (is_member g.now.code.code check) n) out.old }
{
    let mut count = 0;
    for b in 0..n {
        let m = member_at(g, check, b);
        if let Some(place) = m {
            // a cast of what is below 19,440, where a `try_from` would have an error that cannot come
            out[count] = place as u32;
            count += 1;
        }
    }
}
