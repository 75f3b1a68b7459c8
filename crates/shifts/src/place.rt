// The choice of shifts: place after place, each from the state that the one before left.
ghost use Rattle.std.specs.Prelude.{◌≡◌, ◌*◌, ◌≤◌, length};
ghost use Rattle.shifts.specs.Shifts.{shifts_of};
ghost use Rattle.shifts.specs.Biases.{Partly, Follows};

use crate::biases::BiasList;
use crate::placed::Placed;
use crate::search::search;
use crate::weights::WeightTable;

// The next shift, and the state after it. The list of biases is lent, since a new one at each place would be cleared and moved.
fn next_shift(
    placed: &Placed,
    weights: &WeightTable,
    biases: &mut BiasList,
    state: u64,
) -> (u16, u64)
    ensures { Follows placed.now.rows.now placed.now.shifts.now state result.0 result.1 }
{
    placed.collect_biases(biases);
    search(weights, biases, state)
}

// The shifts of k_b columns' rows, from a seed. They are a slice beside the rows, as C lends them, and their lengths are asked here: no
// struct has both, since the rows are read and the shifts written.
pub fn choose_shifts(k_b: usize, rows: &[u8], seed: u64, shifts: &mut [u16])
    requires { (k_b ≤ 61) × (length rows.now ≡ 3 * k_b) × (length shifts.old ≡ 3 * k_b) }
    ensures { shifts.new ≡ shifts_of rows.now seed (3 * k_b) }
{
    let weights = WeightTable::new();
    let mut biases = BiasList::new();
    let mut state = seed;
    for p in 0..3 * k_b {
        let placed = Placed {
            rows,
            shifts: &shifts[..p],
        };
        let (shift, after) = next_shift(&placed, &weights, &mut biases, state);
        shifts[p] = shift;
        state = after;
    }
}
