// The rows of all columns, and the shifts placed so far, of which one is next.
ghost use Rattle.std.specs.Prelude.{◌≡◌, ◌+◌, ◌*◌, ◌/◌, ◌<◌, ◌≤◌, ◌&&◌, length};
ghost use Rattle.laws.specs.Columns.{has_row, shift_on};
ghost use Rattle.shifts.specs.Shifts.{penalty};
ghost use Rattle.shifts.specs.Biases.{Partly, row_cost, bias_cost, Biases};

use crate::biases::BiasList;

#[derive(Clone, Copy)]
pub struct Placed<'a> {
    pub rows: &'a [u8],
    pub shifts: &'a [u16],
    pub ghost partly: { Partly rows.now shifts.now },
}

impl<'a> Placed<'a> {
    fn has_both(&self, c: usize, this: u8, other: u8) -> bool
        requires { c < length self.now.shifts.now / 3 }
        ensures { result ≡ (has_row self.now.rows.now c this && has_row self.now.rows.now c other) }
    {
        columns::has_row(self.rows, c, this) && columns::has_row(self.rows, c, other)
    }

    // Column c's bias, where this column's shift on the other row is `there`.
    fn bias_of(&self, c: usize, this: u8, other: u8, there: usize) -> usize
        requires { (c < length self.now.shifts.now / 3) × (there < 512) }
        ensures upper_bound { result < 1534 }
        ensures there_value { result + (shift_on self.now.rows.now self.now.shifts.now c this + there) ≡ shift_on self.now.rows.now self.now.shifts.now c other + 1022 }
    {
        let up = columns::shift_on(self.rows, self.shifts, c, other) + 1022;
        up - (columns::shift_on(self.rows, self.shifts, c, this) + there)
    }

    // Adds the biases of the earlier columns with the other row at place e.
    fn add_biases(&self, e: usize, biases: &mut BiasList)
        requires { (e < 3) × (biases.old.count + 61 ≤ 183) }
        ensures costs { Biases (λ x. bias_cost biases.old.biases biases.old.count x + row_cost self.now.rows.now self.now.shifts.now e x) biases.new.biases biases.new.count }
        ensures upper_bound { biases.new.count ≤ biases.old.count + 61 }
    {
        let columns = self.shifts.len() / 3;
        let at = 3 * columns + e;
        let this = self.rows[self.shifts.len()];
        let other = self.rows[at];
        let there = columns::shift_at(self.shifts, at);
        for c in 0..columns {
            if self.has_both(c, this, other) {
                biases.push(self.bias_of(c, this, other, there));
            }
        }
    }

    // Collects the biases of the next shift's place.
    pub fn collect_biases(&self, biases: &mut BiasList)
        ensures { Biases (penalty self.now.rows.now self.now.shifts.now) biases.new.biases biases.new.count }
    {
        let place = self.shifts.len() % 3;
        biases.clear();
        for e in 0..3 {
            if e != place {
                self.add_biases(e, biases);
            }
        }
    }
}
