// The tests that several calls make, each for its refusal.
ghost use Rattle.std.specs.Prelude.{◌≡◌};
ghost use Rattle.refusals.specs.Outcome.{outcome};
ghost use Rattle.graph.specs.Calls.{shaped_told, rated_told, lifted_told, sound_told};

use refusals::{Refusal, in_range};

// 3: n_b and k_b.
pub fn shaped(n_b: usize, k_b: usize) -> Result<(), Refusal>
    ensures { outcome result ≡ shaped_told n_b k_b }
{
    in_range(n_b, 4, 64)?;
    in_range(k_b, 1, n_b - 3)
}

// 3: n_b and percent.
pub fn rated(n_b: usize, percent: usize) -> Result<(), Refusal>
    ensures { outcome result ≡ rated_told n_b percent }
{
    in_range(n_b, 4, 64)?;
    in_range(percent, 0, 100)
}

// 3: n_b, k_b and z.
pub fn lifted(n_b: usize, k_b: usize, z: usize) -> Result<(), Refusal>
    ensures { outcome result ≡ lifted_told n_b k_b z }
{
    shaped(n_b, k_b)?;
    in_range(z, 1, 65535)
}

// 4: the first row that is not below m_b or that its column has before.
pub fn sound(m_b: usize, rows: &[u8]) -> Result<(), Refusal>
    ensures { outcome result ≡ sound_told m_b rows.now }
{
    match columns::first_fault(m_b, rows) {
        Some(p) => Err(Refusal::Row {
            column: p / 3,
            place: p % 3,
        }),
        None => Ok(()),
    }
}
