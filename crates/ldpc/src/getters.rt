// What a code record tells of itself, by the Rust's names. The four fields are answered as they stand; what is computed is
// 0, or none, for a record that Choice does not give.
ghost use Rattle.std.specs.Prelude.{◌≡◌};
ghost use Rattle.ldpc.specs.Getters.{checks_told, shape_told, rate_told, edge_told, work_told};

use crate::choice::Code;
use base_edges::Edge;
use tables::Shape;

impl Code {
    pub fn info_bits(self) -> usize
        ensures { result ≡ self.k }
    {
        self.k
    }

    pub fn coded_bits(self) -> usize
        ensures { result ≡ self.n_tx }
    {
        self.n_tx
    }

    pub fn lift(self) -> usize
        ensures { result ≡ self.z }
    {
        self.z
    }

    pub fn shortened_bits(self) -> usize
        ensures { result ≡ self.shortened }
    {
        self.shortened
    }

    // How many parity checks there are.
    #[tactic(auto, unfolding(crate::specs::Getters::checks_told))]
    pub fn checks(self) -> usize
        ensures { result ≡ checks_told self }
    {
        self.valid().map_or(0, |v| v.checks())
    }

    #[tactic(auto, unfolding(crate::specs::Getters::shape_told))]
    pub fn base_shape(self) -> Shape
        ensures { result ≡ shape_told self }
    {
        let none = Shape {
            n_b: 0,
            k_b: 0,
            m_b: 0,
        };
        self.valid().map_or(none, |v| v.shape())
    }

    // k / n_tx.
    #[tactic(auto, unfolding(crate::specs::Getters::rate_told))]
    pub fn effective_rate(self) -> f32
        ensures { result ≡ rate_told self }
    {
        let Ok(v) = self.valid() else {
            return 0.0;
        };
        // at most 19440, so the casts lose nothing
        let k = v.code.k as u16;
        let n = v.code.n_tx as u16;
        f32::from(k) / f32::from(n)
    }

    // Base edge b, where there is one.
    #[tactic(auto, unfolding(crate::specs::Getters::edge_told, matrix::specs::Edges::edges))]
    pub fn base_edge(self, b: usize) -> Option<Edge>
        ensures { result ≡ edge_told self b }
    {
        let v = self.valid().ok()?;
        if b >= v.edges() {
            return None;
        }
        Some(base_edges::edge_at(&v.graph(), b))
    }

    // How many numbers of work memory a decode needs.
    #[tactic(auto, unfolding(crate::specs::Getters::work_told))]
    pub fn work_needed(self) -> usize
        ensures { result ≡ work_told self }
    {
        self.valid().map_or(0, |v| v.work_needed())
    }
}
