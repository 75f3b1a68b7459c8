// A code that Choice gives, and what is computed from it: its graph's shape, the graph, and the sizes that the calls go by.
ghost use Rattle.std.specs.Prelude.{◌≡◌, true, false, IfOk, IfErr, ◌+◌, ◌*◌, ◌-◌, ◌≤◌};
ghost use Rattle.refusals.specs.declared.Refusal.TheVariants.{Record};
ghost use Rattle.tables.specs.Graph.{IsTableShape};
ghost use Rattle.matrix.specs.Edges.{edges};
ghost use Rattle.ldpc.specs.Choice.{made};
ghost use Rattle.ldpc.specs.Code.{code_graph, info_end, checks_of, work_of};

use crate::choice::Code;
use refusals::Refusal;
use tables::{BaseGraph, Shape};

// A code record that Choice gives. Whoever writes one proves its two facts.
#[derive(Clone, Copy, Debug)]
pub struct ValidCode {
    pub code: Code,
    pub ghost made: { made code ≡ true },
    pub ghost sized: { (1 ≤ code.z) × (code.z ≤ 324) × (1 ≤ code.k) × (code.k ≤ code.n_tx) × (code.n_tx ≤ 19440) },
}

impl Code {
    // The record, known to be one that Choice gives; refusal 11 where it is not.
    #[tactic(auto, using(crate::proofs::Made::bounds))]
    pub fn valid(self) -> Result<ValidCode, Refusal>
        ensures ok { IfOk result (λ v. (v.code ≡ self) × (made self ≡ true)) }
        ensures err { IfErr result (λ e. (e ≡ Record self.rate self.n_tx) × (made self ≡ false)) }
    {
        if self.is_made() {
            Ok(ValidCode { code: self })
        } else {
            Err(Refusal::Record {
                rate: self.rate,
                n_tx: self.n_tx,
            })
        }
    }
}

impl ValidCode {
    #[tactic(auto, unfolding(crate::specs::Code::code_graph, tables::specs::Graph::graph_of))]
    pub fn shape(self) -> Shape
        ensures value { result ≡ (code_graph self.code).shape }
        ensures bounds { IsTableShape result }
    {
        tables::shape_of(self.code.rate, self.code.family)
    }

    #[tactic(auto, using(crate::proofs::Made::graph_bounds), unfolding(crate::specs::Code::code_graph))]
    pub fn graph(self) -> BaseGraph
        ensures value { result ≡ code_graph self.code }
        ensures bounds { IsTableShape result.shape }
    {
        tables::graph_of(self.code.rate, self.code.family)
    }

    // How many base edges there are.
    #[tactic(auto, unfolding(matrix::specs::Edges::edges))]
    pub fn edges(self) -> usize
        ensures value { result ≡ edges (code_graph self.code) }
        ensures most { result ≤ 172 }
    {
        let s = self.shape();
        3 * s.k_b + 2 * s.m_b + 1
    }

    // Where the parity columns begin in the lifted word; the information ends before.
    #[tactic(auto, using(crate::proofs::Made::info_most, crate::proofs::Made::parity_is), unfolding(crate::specs::Code::info_end))]
    pub fn info_end(self) -> usize
        ensures value { result ≡ info_end self.code }
        ensures after_information { self.code.k ≤ result }
        ensures before_parity { result + (self.code.n_tx - self.code.k) ≡ (code_graph self.code).shape.n_b * self.code.z }
        ensures most { result ≤ 16524 }
    {
        self.shape().k_b * self.code.z
    }

    // How many parity checks there are.
    #[tactic(auto, unfolding(crate::specs::Code::checks_of))]
    pub fn checks(self) -> usize
        ensures value { result ≡ checks_of self.code }
        ensures most { result ≤ 12636 }
    {
        self.shape().m_b * self.code.z
    }

    // How many numbers of work memory a decode needs.
    #[tactic(auto, unfolding(crate::specs::Code::work_of))]
    pub fn work_needed(self) -> usize
        ensures value { result ≡ work_of self.code }
        ensures most { result ≤ 150336 }
    {
        2 * (self.shape().n_b * self.code.z) + 2 * (self.edges() * self.code.z)
    }
}
