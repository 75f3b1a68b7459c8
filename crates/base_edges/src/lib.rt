// The base edges of a graph, and the bit that one joins to a check. What a function requires, its callers meet, in the crates of codes
// above.
#![tactic(auto)]

ghost use Rattle.std.specs.Prelude.{◌≡◌, ◌+◌, ◌*◌, ◌%◌, ◌<◌, ◌≤◌};
ghost use Rattle.base_edges.specs.Edge.{edge_of, edges_in};

use tables::BaseGraph;

// A base edge: its row, its column and its shift.
#[derive(Clone, Copy, Debug, PartialEq, Eq)]
pub struct Edge {
    pub row: usize,
    pub column: usize,
    pub shift: usize,
}

// Fossorier's circulant: where offset t goes by a shift. At a lift of 1 nothing turns, and the division is saved. z's bound is asked here,
// as it is in no type below ldpc.
pub fn rotated(t: usize, shift: usize, z: usize) -> usize
    requires { (t < z) × (z ≤ 324) × (shift < 512) }
    ensures { result ≡ (t + shift) % z }
{
    if z == 1 {
        return 0;
    }
    (t + shift) % z
}

// Base edge b, in an information column.
pub fn info_edge(g: &BaseGraph, b: usize) -> Edge
    requires { (g.now.shape.k_b ≤ 51) × (b < 3 * g.now.shape.k_b) }
    ensures { result ≡ edge_of g.now b }
{
    Edge {
        row: usize::from(g.rows[b]),
        column: b / 3,
        shift: usize::from(g.shifts[b]),
    }
}

// Base edge b.
pub fn edge_at(g: &BaseGraph, b: usize) -> Edge
    requires { (g.now.shape.k_b ≤ 51) × (g.now.shape.m_b ≤ 39) × (1 ≤ g.now.shape.m_b) × (b < edges_in g.now.shape) }
    ensures { result ≡ edge_of g.now b }
{
    let s = g.shape;
    let info = 3 * s.k_b;
    if b < info {
        return info_edge(g, b);
    }
    let p = b - info;
    let (row, column, shift) = match p {
        0 => (0, s.k_b, 0),
        1 => (s.m_b - 1, s.k_b, 0),
        2 => (s.m_b / 2, s.k_b, 1),
        _ if p % 2 == 1 => ((p - 1) / 2, s.k_b + (p - 1) / 2, 0),
        _ => ((p - 1) / 2 - 1, s.k_b + (p - 1) / 2, 0),
    };
    Edge { row, column, shift }
}
