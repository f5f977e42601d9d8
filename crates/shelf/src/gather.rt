// Reads whole columns of a tray into the sums of rows and lines.
ghost use Rattle.std.specs.Prelude.{◌≡◌, ◌<◌, ◌≤◌, true, cond, if◌then◌else◌};
ghost use Rattle.code.specs.Numbers.{only};
ghost use Rattle.code.specs.Code.{rows};
ghost use Rattle.law.specs.Holding.{held};
ghost use Rattle.shelf.specs.Missing.{is_out};
ghost use Rattle.shelf.specs.Reading.{Answers, Heard, after_reads, times, each_below, once_each, part, in_service, served};

use crate::bench::Bench;
use crate::roster::missing::Missing;
use code::places::Row;
use tray::trays::Tray;

impl<'a> Bench<'a> {
    ghost use Rattle.shelf.specs.Benches.{Fills, AddsData, Gathers, size_of};

    // Fills the slots from `first` on, one for each row, with zeros.
    fn clear(&mut self, first: usize)
        requires { first ≤ rows self.old.k.number }
        ensures { Fills first (rows self.old.k.number) (λ _ _. 0) self.old self.new }
    {
        let size = self.block.len();
        let at = first * size;
        let end = at + self.k.rows() as usize * size;
        self.work[at..end].fill(0);
    }

    // Reads a column once into the slots from `first` on, one for each row.
    fn load<T: Tray>(&mut self, tray: &mut T, column: u32, first: usize)
        requires answers { Answers self.old.k.number (size_of self.old) (T.Tray.meaning tray.old) column }
        requires first { first ≤ rows self.old.k.number }
        ensures tray { T.Tray.meaning tray.new ≡ after_reads (T.Tray.meaning tray.old) (times column (rows self.old.k.number)) }
        ensures work { Fills first (rows self.old.k.number) (λ r b. held (T.Tray.meaning tray.old) b r column) self.old self.new }
    {
        for row in 0..self.k.rows() {
            self.fetch_slot(tray, column, row, first + row as usize);
        }
    }

    // Fills the slots from `first` on with a parity column if it is to be read, and else with zeros.
    fn begin<T: Tray>(&mut self, tray: &mut T, column: u32, is_read: bool, first: usize)
        requires answers { is_read ≡ true → Answers self.old.k.number (size_of self.old) (T.Tray.meaning tray.old) column }
        requires first { first ≤ rows self.old.k.number }
        ensures tray { T.Tray.meaning tray.new ≡ after_reads (T.Tray.meaning tray.old) (times column (cond is_read (rows self.old.k.number) 0)) }
        ensures work { Fills first (rows self.old.k.number) (λ r b. only is_read (held (T.Tray.meaning tray.old) b r column)) self.old self.new }
    {
        if is_read {
            self.load(tray, column, first);
        } else {
            self.clear(first);
        }
    }

    // Reads a data column once and adds its blocks to the sums, by way of the block.
    pub(crate) fn gather_column<T: Tray>(&mut self, tray: &mut T, column: u32)
        requires answers { Answers self.old.k.number (size_of self.old) (T.Tray.meaning tray.old) column }
        requires column { column < self.old.k.number }
        ensures tray { T.Tray.meaning tray.new ≡ after_reads (T.Tray.meaning tray.old) (times column (rows self.old.k.number)) }
        ensures work { AddsData (λ b. part column (rows self.old.k.number) (held (T.Tray.meaning tray.old) b)) self.old self.new }
    {
        for row in 0..self.k.rows() {
            self.fetch_block(tray, column, row);
            self.add_place(Row(row), column);
        }
    }

    // The same for a data column that may be out: then there is nothing to add.
    fn gather_served<T: Tray>(&mut self, tray: &mut T, out: Missing, column: u32)
        requires heard { Heard self.old.k.number (size_of self.old) (is_out out) (T.Tray.meaning tray.old) }
        requires column { column < self.old.k.number }
        ensures tray { T.Tray.meaning tray.new ≡ after_reads (T.Tray.meaning tray.old) (times column (if is_out out column then 0 else rows self.old.k.number)) }
        ensures work { AddsData (λ b. in_service (is_out out) column (held (T.Tray.meaning tray.old) b)) self.old self.new }
    {
        if !out.is_out(column) {
            self.gather_column(tray, column);
        }
    }

    // Reads every data column in service once and adds its blocks to the sums.
    fn gather_data<T: Tray>(&mut self, tray: &mut T, out: Missing)
        requires { Heard self.old.k.number (size_of self.old) (is_out out) (T.Tray.meaning tray.old) }
        ensures tray { T.Tray.meaning tray.new ≡ after_reads (T.Tray.meaning tray.old) (each_below (is_out out) (rows self.old.k.number) self.old.k.number) }
        ensures work { AddsData (λ b. served (is_out out) self.old.k.number (held (T.Tray.meaning tray.old) b)) self.old self.new }
    {
        for column in 0..self.k.number {
            self.gather_served(tray, out, column);
        }
    }

    // Reads what tells the missing columns, each block once, and leaves what it adds up to: all data in service, and the
    // parities in service where a data column is out.
    pub(crate) fn gather<T: Tray>(&mut self, tray: &mut T, out: Missing)
        requires { Heard self.old.k.number (size_of self.old) (is_out out) (T.Tray.meaning tray.old) }
        ensures tray { T.Tray.meaning tray.new ≡ after_reads (T.Tray.meaning tray.old) (once_each self.old.k.number (is_out out)) }
        ensures work { Gathers (is_out out) (T.Tray.meaning tray.old) self.old self.new }
    {
        let k = self.k;
        self.begin(tray, k.number, out.reads_parity(k, k.number), 0);
        self.begin(
            tray,
            k.number + 1,
            out.reads_parity(k, k.number + 1),
            k.rows() as usize,
        );
        self.gather_data(tray, out);
    }
}
