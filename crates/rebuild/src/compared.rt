// How the columns of a graph that was built differ from the table's.
ghost use Rattle.std.specs.Prelude.{◌≡◌, ◌+◌, ◌*◌, ◌<◌, [], ◌∷◌};
ghost use Rattle.laws.specs.Columns.{entry_of};
ghost use Rattle.laws.specs.Range.{some};
ghost use Rattle.rebuild.specs.Compared.{differs_at, columns_differ};

use columns::Columns;

// The three shifts of column c.
fn shifts_of(columns: &Columns, c: usize) -> [u16; 3]
    requires { c < columns.now.count }
    ensures { result ≡ entry_of columns.now.shifts.now c 0 ∷ entry_of columns.now.shifts.now c 1 ∷ entry_of columns.now.shifts.now c 2 ∷ [] }
{
    [
        columns.shifts[3 * c],
        columns.shifts[3 * c + 1],
        columns.shifts[3 * c + 2],
    ]
}

// Whether column c differs in a row or a shift.
#[tactic(auto, using(crate::proofs::Apart::apart), unfolding(laws::specs::Range::some, crate::specs::Compared::differs_at))]
fn column_differs(built: &Columns, table: &Columns, c: usize) -> bool
    requires { (c < built.now.count) × (c < table.now.count) }
    ensures { result ≡ some (λ e. differs_at built.now.rows.now built.now.shifts.now table.now.rows.now table.now.shifts.now (3 * c + e)) 3 }
{
    (built.rows_of(c), shifts_of(built, c)) != (table.rows_of(c), shifts_of(table, c))
}

// How many columns differ.
#[tactic(auto, unfolding(laws::specs::Range::count, crate::specs::Compared::columns_differ))]
pub fn columns_differ(built: &Columns, table: &Columns) -> usize
    requires { table.now.count ≡ built.now.count }
    ensures { result ≡ columns_differ built.now.rows.now built.now.shifts.now table.now.rows.now table.now.shifts.now built.now.count }
{
    let mut count = 0;
    for c in 0..built.count {
        if column_differs(built, table, c) {
            count += 1;
        }
    }
    count
}
