// The 18 base graphs of tables.rs: the shape of a graph, and a whole graph by value. A rate above 5 counts as 5 and a
// family above 2 as 2 (0 large, 1 small, 2 tiny), so every call answers; an enum would refuse such numbers. Assumes nothing.
#![tactic(auto)]

mod flat;

ghost use Rattle.std.specs.Prelude.{◌≡◌, ◌+◌, ◌<◌, ◌≤◌};
ghost use Rattle.tables.specs.Graph.{graph_number, info_columns, first_column, shape_of, graph_of, IsTableShape};

use flat::{ROWS, SHIFTS};

// The base columns, the information columns and the base rows of a graph.
#[derive(Clone, Copy, Debug, PartialEq, Eq)]
pub struct Shape {
    pub n_b: usize,
    pub k_b: usize,
    pub m_b: usize,
}

// A graph: entry 3 * j + i is pair i of information column j; 0 past the last column. Rows and shifts stay two lists, as the C calls
// of graph design lend them.
#[derive(Clone, Copy, Debug, PartialEq, Eq)]
pub struct BaseGraph {
    pub shape: Shape,
    pub rows: [u8; 153],
    pub shifts: [u16; 153],
}

const BASE_COLUMNS: [usize; 3] = [60, 20, 10];

const INFO_COLUMNS: [usize; 18] = [
    51, 45, 39, 33, 27, 21, 17, 15, 13, 11, 9, 7, 7, 7, 6, 5, 4, 3,
];

// The information columns that stand before each graph in the flat tables.
const FIRST_COLUMN: [usize; 18] = [
    0, 51, 96, 135, 168, 195, 216, 233, 248, 261, 272, 281, 288, 295, 302, 308, 313, 317,
];

// The number of the graph of a rate and a family, below 18. Rate and family are numbers, as in the records: any is taken.
#[tactic(auto, unfolding(crate::specs::Graph::graph_number))]
pub fn graph_number(rate: usize, family: usize) -> usize
    ensures value { result ≡ graph_number rate family }
    ensures below { result < 18 }
{
    6 * family.min(2) + rate.min(5)
}

fn first_column(g: usize) -> usize
    requires { g < 18 }
    ensures value { result ≡ first_column g }
    ensures inside { result + info_columns g ≤ 320 }
{
    FIRST_COLUMN[g]
}

fn shape_at(g: usize) -> Shape
    requires { g < 18 }
    ensures value { result ≡ shape_of g }
    ensures columns { result.k_b ≡ info_columns g }
    ensures bounds { IsTableShape result }
{
    let n_b = BASE_COLUMNS[g / 6];
    let k_b = INFO_COLUMNS[g];
    Shape {
        n_b,
        k_b,
        m_b: n_b - k_b,
    }
}

// The shape of the graph of a rate and a family.
pub fn shape_of(rate: usize, family: usize) -> Shape
    ensures value { result ≡ shape_of (graph_number rate family) }
    ensures bounds { IsTableShape result }
{
    shape_at(graph_number(rate, family))
}

// The graph of a rate and a family.
pub fn graph_of(rate: usize, family: usize) -> BaseGraph
    ensures { result ≡ graph_of (graph_number rate family) }
{
    let g = graph_number(rate, family);
    let shape = shape_at(g);
    let at = 3 * first_column(g);
    let mut rows = [0; 153];
    let mut shifts = [0; 153];
    for i in 0..3 * shape.k_b {
        rows[i] = ROWS[at + i];
        shifts[i] = SHIFTS[at + i];
    }
    BaseGraph {
        shape,
        rows,
        shifts,
    }
}
