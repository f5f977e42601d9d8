// Finds the missing columns, in every state but that of a data column that alone is out: from k columns, each block read once.
ghost use Rattle.std.specs.Prelude.{◌≡◌, ◌+◌, ◌<◌, ◌≤◌, true, false, ◌≢◌};
ghost use Rattle.code.specs.Code.{rows};
ghost use Rattle.shelf.specs.Missing.{is_out, are_columns};
ghost use Rattle.shelf.specs.Reading.{Heard, after_reads, once_each};
ghost use Rattle.shelf.specs.Recovering.{is_sole_data, slot_for};

use crate::bench::Bench;
use crate::roster::missing::Missing;
use crate::sums::line_slot;
use code::neighbours::is_right;
use code::places::Row;
use code::widths::Width;
use tray::trays::Tray;

// The slot of a row of a missing column, once the columns are found and the column `by` lies by rows.
pub(crate) fn slot_for(k: Width, by: u32, column: u32, row: Row) -> usize
    requires { row.0 < rows k.number }
    ensures value { result ≡ slot_for k.number by column row.0 }
    ensures within { result < rows k.number + rows k.number }
{
    if column == by {
        row.0 as usize
    } else if column < k.number {
        line_slot(k, row.line(column))
    } else {
        k.rows() as usize + row.0 as usize
    }
}

impl<'a> Bench<'a> {
    ghost use Rattle.shelf.specs.Benches.{FindsMissing, Recovers, size_of};

    // Finds two data columns, and answers the one that lies by rows: of the two, the one that has the other for a right
    // neighbour.
    fn find_data(&mut self, a: u32, b: u32) -> u32
        requires a { a < self.old.k.number }
        requires b { b < self.old.k.number }
        requires apart { a ≢ b }
        ensures { FindsMissing (Missing.Two a b) result self.old self.new }
    {
        if is_right(self.k.number, b, a) {
            self.spread(b);
            self.solve(a, b);
            b
        } else {
            self.spread(a);
            self.solve(b, a);
            a
        }
    }

    // Finds a data column and a parity column, and answers the one that lies by rows.
    fn find_with_parity(&mut self, column: u32, parity: u32) -> u32
        requires column { column < self.old.k.number }
        requires parity { self.old.k.number ≤ parity }
        requires below { parity < self.old.k.number + 2 }
        ensures { FindsMissing (Missing.Two column parity) result self.old self.new }
    {
        let k = self.k.number;
        if parity == k {
            self.solve(column, k);
            k
        } else {
            self.spread(column);
            column
        }
    }

    // Finds two columns, and answers the one that lies by rows.
    fn find_two(&mut self, a: u32, b: u32) -> u32
        requires { are_columns self.old.k.number (Missing.Two a b) ≡ true }
        ensures { FindsMissing (Missing.Two a b) result self.old self.new }
    {
        let k = self.k.number;
        if a >= k && b >= k {
            k
        } else if b >= k {
            self.find_with_parity(a, b)
        } else if a >= k {
            self.find_with_parity(b, a)
        } else {
            self.find_data(a, b)
        }
    }

    // Finds the missing columns from what was gathered, and answers the column that lies by rows.
    fn find(&mut self, out: Missing) -> u32
        requires columns { are_columns self.old.k.number out ≡ true }
        requires several { is_sole_data self.old.k.number out ≡ false }
        ensures { FindsMissing out result self.old self.new }
    {
        match out {
            Missing::Nothing => self.k.number,
            Missing::One(_) => self.k.number,
            Missing::Two(a, b) => self.find_two(a, b),
        }
    }

    // Finds the missing columns, and answers the column whose blocks then lie in the slots of the rows.
    pub(crate) fn recover<T: Tray>(&mut self, tray: &mut T, out: Missing) -> u32
        requires heard { Heard self.old.k.number (size_of self.old) (is_out out) (T.Tray.meaning tray.old) }
        requires columns { are_columns self.old.k.number out ≡ true }
        requires several { is_sole_data self.old.k.number out ≡ false }
        ensures tray { T.Tray.meaning tray.new ≡ after_reads (T.Tray.meaning tray.old) (once_each self.old.k.number (is_out out)) }
        ensures work { Recovers (is_out out) (T.Tray.meaning tray.old) result self.old self.new }
    {
        self.gather(tray, out);
        self.find(out)
    }
}
