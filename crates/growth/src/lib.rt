//! Progressive edge growth. `grow` is pub only because the crate graph calls it; its callers meet what it requires.
#![tactic(auto)]

mod base_rows;
mod choice;
mod links;
mod rows;
mod search;
mod shared;

ghost use Rattle.std.specs.Prelude.{◌≡◌, ◌+◌, ◌*◌, ◌≤◌, length};
ghost use Rattle.growth.specs.Growth.{rows_of};

use crate::base_rows::BaseRows;
use crate::links::Links;

// The rows of all columns, chosen one after another. They are a slice, as C lends them, and its length is asked here.
pub fn grow(m_b: usize, k_b: usize, rows: &mut [u8])
    requires { (3 ≤ m_b) × (k_b + m_b ≤ 64) × (length rows.old ≡ 3 * k_b) }
    ensures { rows.new ≡ rows_of m_b k_b }
{
    let mut links = Links::new(BaseRows { m_b });
    for p in 0..3 * k_b {
        let r = links.next_row(rows, p).unwrap();
        links.join(rows, p, r);
        // below 64, so the cast loses nothing
        rows[p] = r as u8;
    }
}
