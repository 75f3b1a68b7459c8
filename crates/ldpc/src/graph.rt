// A valid code beside its graph, for the calls that go edge by edge.
ghost use Rattle.std.specs.Prelude.{◌≡◌, ◌+◌, ◌*◌, ◌/◌, ◌<◌, ◌≤◌};
ghost use Rattle.tables.specs.Graph.{IsTableShape};
ghost use Rattle.matrix.specs.Edges.{edges};
ghost use Rattle.base_edges.specs.Edge.{edge_of};
ghost use Rattle.ldpc.specs.Code.{code_graph};

use crate::valid::ValidCode;
use base_edges::Edge;
use tables::BaseGraph;

// A valid code and its graph. Whoever writes one proves that the graph is the code's, and the sizes that follow.
#[derive(Clone, Copy, Debug)]
pub struct CodeGraph {
    pub code: ValidCode,
    pub graph: BaseGraph,
    pub ghost of_code: { graph ≡ code_graph code.code },
    pub ghost bounds: { IsTableShape graph.shape },
    pub ghost parity: { code.code.k + graph.shape.m_b * code.code.z ≡ code.code.n_tx },
    pub ghost info: { code.code.k ≤ graph.shape.k_b * code.code.z },
}

impl CodeGraph {
    pub fn new(code: ValidCode) -> CodeGraph
        ensures { result.code.code ≡ code.code }
    {
        CodeGraph {
            code,
            graph: code.graph(),
        }
    }

    // Base edge b, which lies within the graph.
    #[tactic(auto, using(crate::proofs::CodeEdges::edge_within), unfolding(matrix::specs::Edges::edges))]
    pub fn edge(&self, b: usize) -> Edge
        requires { b < edges self.now.graph }
        ensures value { result ≡ edge_of self.now.graph b }
        ensures row { result.row < self.now.graph.shape.m_b }
        ensures column { result.column < self.now.graph.shape.n_b }
        ensures shift { result.shift < 512 }
    {
        base_edges::edge_at(&self.graph, b)
    }

    // The same of a base edge that is known to stand in an information column.
    #[tactic(auto, using(crate::proofs::CodeEdges::edge_within, crate::proofs::CodeEdges::info_edge_column), unfolding(matrix::specs::Edges::edges))]
    pub fn info_edge(&self, b: usize) -> Edge
        requires { b < 3 * self.now.graph.shape.k_b }
        ensures value { result ≡ edge_of self.now.graph b }
        ensures row { result.row < self.now.graph.shape.m_b }
        ensures column { result.column ≡ b / 3 }
        ensures shift { result.shift < 512 }
    {
        base_edges::info_edge(&self.graph, b)
    }
}
