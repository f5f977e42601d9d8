// The rebuild of a column: its blocks are found from those in service and written, and it is in service again.
ghost use Rattle.std.specs.Prelude.{◌≡◌, ◌+◌, ◌<◌, true, length};
ghost use Rattle.tray.specs.Meaning.{stored, if_ok};
ghost use Rattle.code.specs.Code.{rows};
ghost use Rattle.code.specs.Neighbours.{published};
ghost use Rattle.law.specs.Service.{removed};
ghost use Rattle.law.specs.Calls.{Rebuilt};
ghost use Rattle.law.specs.Promises.{Spares};
ghost use Rattle.shelf.specs.Missing.{is_out, are_columns};
ghost use Rattle.shelf.specs.Rosters.{roster_of, back_in};
ghost use Rattle.shelf.specs.Checks.{rebuilding};
ghost use Rattle.shelf.specs.Layouts.{given};
ghost use Rattle.shelf.specs.Promises.{RebuildsOn};
ghost use Rattle.shelf.specs.Blocks.{Ready};
ghost use Rattle.shelf.specs.Reading.{Answers, Heard};
ghost use Rattle.shelf.specs.Recovering.{is_sole_data};
ghost use Rattle.shelf.specs.Regaining.{sole_slot};
ghost use Rattle.shelf.specs.Rebuilding.{slot_of, pair_of, Located, slot_block, written, reads_for, reads_of, RebuildCarries};

use crate::bench::Bench;
use crate::blocks::place;
use crate::recover::slot_for;
use crate::roster::Roster;
use crate::roster::missing::Missing;
use crate::scratch::Scratch;
use crate::sums::line_slot;
use code::places::Row;
use code::widths::Width;
use tray::fault::Fault;
use tray::trays::Tray;

// Where the rows of a missing column lie in the work space, once it is found.
#[derive(Clone, Copy)]
enum Whereabouts {
    // A data column that alone is out: a row that is dark for it lies in the slot of the row, a white one in that of its line.
    Alone,
    // One of two columns: the one that is told here lies in the slots of the rows, the other in those of the lines.
    ByRows(u32),
}

// The slot of a row of a data column that alone is out.
fn sole_slot(k: Width, column: u32, row: Row) -> usize
    requires column { column < k.number }
    requires row { row.0 < rows k.number }
    ensures value { result ≡ sole_slot k.number column row.0 }
    ensures within { result < rows k.number + rows k.number }
{
    if row.is_dark(column) {
        row.0 as usize
    } else {
        line_slot(k, row.line(column))
    }
}

impl Whereabouts {
    // The slot of a row of the column.
    fn slot(self, k: Width, column: u32, row: Row) -> usize
        requires column { self ≡ Whereabouts.Alone → column < k.number }
        requires row { row.0 < rows k.number }
        ensures value { result ≡ slot_of k.number self column row.0 }
        ensures within { result < rows k.number + rows k.number }
    {
        match self {
            Whereabouts::Alone => sole_slot(k, column, row),
            Whereabouts::ByRows(by) => slot_for(k, by, column, row),
        }
    }

    // The number of blocks that were read to find the column: half of each other column, or the whole of k columns.
    fn reads(self, k: Width) -> u32
        ensures { result ≡ reads_for k.number self }
    {
        match self {
            Whereabouts::Alone => (k.number + 1) * (k.rows() / 2),
            Whereabouts::ByRows(_) => k.number * k.rows(),
        }
    }
}

impl Missing {
    // Whether a data column alone is out.
    fn is_sole_data(self, k: Width) -> bool
        ensures { result ≡ is_sole_data k.number self }
    {
        matches!(self, Missing::One(a) if a < k.number)
    }

    // The two columns that are taken as missing where it is not a data column alone. With all data in service both parities
    // are made of them, whatever the other parity holds.
    fn pair(self, k: Width) -> Missing
        ensures { result ≡ pair_of k.number self }
    {
        match self {
            Missing::Two(..) => self,
            _ => Missing::Two(k.number, k.number + 1),
        }
    }
}

impl<'a> Bench<'a> {
    ghost use Rattle.shelf.specs.Benches.{Kept, size_of};

    // Finds a missing column.
    fn locate<T: Tray>(&mut self, tray: &mut T, out: Missing, column: u32) -> Whereabouts
        requires heard { Heard self.old.k.number (size_of self.old) (is_out out) (T.Tray.meaning tray.old) }
        requires columns { are_columns self.old.k.number out ≡ true }
        requires missing { is_out out column ≡ true }
        ensures kept { Kept self.old self.new }
        ensures found { Located self.old.k.number (published self.old.k.number) (size_of self.old) out (T.Tray.meaning tray.old) column result (T.Tray.meaning tray.new) self.new.work.now }
    {
        let k = self.k;
        if out.is_sole_data(k) {
            self.regain(tray, column);
            Whereabouts::Alone
        } else {
            let by = self.recover(tray, out.pair(k));
            Whereabouts::ByRows(by)
        }
    }

    // Writes a block from a slot.
    fn place_slot<T: Tray>(&self, tray: &mut T, column: u32, row: u32, slot: usize)
        requires ready { Ready (T.Tray.meaning tray.old) column row (size_of self.now) }
        requires within { slot < rows self.now.k.number + rows self.now.k.number }
        ensures { T.Tray.meaning tray.new ≡ stored (T.Tray.meaning tray.old) column row (slot_block (size_of self.now) self.now.work.now slot) }
    {
        let size = self.block.len();
        let at = slot * size;
        place(tray, column, row, &self.work[at..at + size]);
    }

    // Writes every row of a column that was found.
    fn write_column<T: Tray>(&self, tray: &mut T, column: u32, found: Whereabouts)
        requires answers { Answers self.now.k.number (size_of self.now) (T.Tray.meaning tray.old) column }
        requires column { found ≡ Whereabouts.Alone → column < self.now.k.number }
        ensures { T.Tray.meaning tray.new ≡ written (T.Tray.meaning tray.old) column (rows self.now.k.number) (λ i. slot_block (size_of self.now) self.now.work.now (slot_of self.now.k.number found column i)) }
    {
        let k = self.k;
        for row in 0..k.rows() {
            self.place_slot(tray, column, row, found.slot(k, column, Row(row)));
        }
    }

    // Finds a missing column and writes it, and answers the number of blocks that were read.
    fn refill<T: Tray>(&mut self, tray: &mut T, out: Missing, column: u32) -> u32
        requires heard { Heard self.old.k.number (size_of self.old) (is_out out) (T.Tray.meaning tray.old) }
        requires answers { (T.Tray.meaning tray.old).answers column ≡ true }
        requires columns { are_columns self.old.k.number out ≡ true }
        requires missing { is_out out column ≡ true }
        ensures count { result ≡ reads_of self.old.k.number out }
        ensures done { Rebuilt self.old.k.number (published self.old.k.number) (size_of self.old) (is_out out) (T.Tray.meaning tray.old) column result (removed (is_out out) column) (T.Tray.meaning tray.new) }
    {
        let found = self.locate(tray, out, column);
        self.write_column(tray, column, found);
        found.reads(self.k)
    }
}

impl Roster {
    // Fills a column that is out, data or parity, with the data at hand or their parity, and puts it in service again.
    // Answers the number of blocks that were read.
    pub fn rebuild<T: Tray>(
        &mut self,
        tray: &mut T,
        column: u32,
        work: &mut [u8],
    ) -> Result<u32, Fault>
        ensures value { result ≡ given (rebuilding (roster_of self.old) (T.Tray.meaning tray.old) column (length work.old)) (reads_of (roster_of self.old).width (roster_of self.old).missing) }
        ensures after { roster_of self.new ≡ if_ok result (back_in (roster_of self.old) column) (roster_of self.old) }
        ensures done { RebuildsOn (roster_of self.old) (T.Tray.meaning tray.old) column result (roster_of self.new) (T.Tray.meaning tray.new) }
        ensures work { Spares work.old result work.new }
        ensures carries { RebuildCarries (roster_of self.old) (T.Tray.meaning tray.old) (T.Tray.sized tray.old) column result (roster_of self.new) (T.Tray.meaning tray.new) (T.Tray.sized tray.new) }
    {
        self.check_rebuild(tray, column, work.len())?;
        let mut scratch = Scratch::new();
        let mut bench = Bench {
            k: self.width(),
            block: scratch.block(self.size()),
            work,
        };
        let reads = bench.refill(tray, self.missing(), column);
        self.put_back(column);
        Ok(reads)
    }
}
