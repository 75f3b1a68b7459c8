//! The information columns of a base graph as two flat lists, rows and shifts: where a column has a row, and the test of the rows. What a
//! call requires, its callers in the crates of graph design meet.
#![tactic(auto)]

mod lent;

ghost use Rattle.std.specs.Prelude.{◌≡◌, ◌+◌, ◌*◌, ◌<◌, ◌≤◌, ◌==◌, position, length, get_or};
ghost use Rattle.laws.specs.Columns.{has_row, shift_on, faulty, first_fault};
ghost use Rattle.columns.specs.Found.{below};

pub use lent::Columns;

// These take slices and no `Columns`: the choice of shifts calls them where only some shifts are placed.

// Whether column c has an edge on a row.
pub fn has_row(rows: &[u8], c: usize, row: u8) -> bool
    requires { 3 * c + 3 ≤ length rows.now }
    ensures { result ≡ has_row rows.now c row }
{
    rows[3 * c..3 * c + 3].contains(&row)
}

// The place of a row among some rows.
fn place_of(rows: &[u8], row: u8) -> Option<usize>
    ensures { result ≡ position (λ r. r == row) rows.now }
{
    rows.iter().position(|r| *r == row)
}

// The shift at a place, 0 where none is placed yet, as the definitions have it.
pub fn shift_at(shifts: &[u16], i: usize) -> usize
    ensures { (result ≡ get_or shifts.now i 0) × (result < 65536) }
{
    shifts.get(i).map_or(0, |s| usize::from(*s))
}

// The shift of the edge on a row. Of a column without the row it is the one behind the column's three, as in the definition.
pub fn shift_on(rows: &[u8], shifts: &[u16], c: usize, row: u8) -> usize
    requires { 3 * c + 3 ≤ length rows.now }
    ensures { (result ≡ shift_on rows.now shifts.now c row) × (result < 65536) }
{
    let place = place_of(&rows[3 * c..3 * c + 3], row).unwrap_or(3);
    shift_at(shifts, 3 * c + place)
}

// The row at a place is not below m_b, or its column has it before.
fn is_faulty(m_b: usize, rows: &[u8], p: usize) -> bool
    requires { p < length rows.now }
    ensures { result ≡ faulty m_b rows.now p }
{
    let row = rows[p];
    let from = 3 * (p / 3);
    m_b <= usize::from(row) || rows[from..from + p % 3].contains(&row)
}

// The first such place.
pub fn first_fault(m_b: usize, rows: &[u8]) -> Option<usize>
    ensures { result ≡ below (length rows.now) (first_fault m_b rows.now) }
{
    (0..rows.len()).find(|p| is_faulty(m_b, rows, *p))
}
