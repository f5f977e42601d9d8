// The put of a data block.
ghost use Rattle.std.specs.Prelude.{◌≡◌, false, length, if◌then◌else◌};
ghost use Rattle.tray.specs.Meaning.{stored};
ghost use Rattle.code.specs.Neighbours.{published};
ghost use Rattle.law.specs.Calls.{Put};
ghost use Rattle.law.specs.Runs.{put as sent};
ghost use Rattle.law.specs.Promises.{Spares, told};
ghost use Rattle.shelf.specs.Rosters.{roster_of, out_of};
ghost use Rattle.shelf.specs.Blocks.{Ready};
ghost use Rattle.shelf.specs.Checks.{reaching};
ghost use Rattle.shelf.specs.Promises.{PutsOn, CarriesOn};
ghost use Rattle.shelf.specs.Hands.{Reach};

use crate::blocks::place;
use crate::roster::Roster;
use crate::scratch::Scratch;
use crate::slots::add;
use code::places::Row;
use tray::fault::Fault;
use tray::trays::Tray;

impl Roster {
    // Writes a block to a column, unless the column is out.
    fn write_served<T: Tray>(&self, tray: &mut T, column: u32, row: Row, block: &[u8])
        requires { out_of (roster_of self.now) column ≡ false → Ready (T.Tray.meaning tray.old) column row.0 (length block.now) }
        ensures { T.Tray.meaning tray.new ≡ (if out_of (roster_of self.now) column then T.Tray.meaning tray.old else stored (T.Tray.meaning tray.old) column row.0 block.now) }
    {
        if !self.missing().is_out(column) {
            place(tray, column, row.0, block);
        }
    }

    // Puts a block in the place of the one at hand. What the two differ by, in `change`, is added to the parities.
    fn exchange<T: Tray>(
        &self,
        tray: &mut T,
        column: u32,
        row: Row,
        block: &[u8],
        change: &mut [u8],
        work: &mut [u8],
    )
        requires reach { Reach (roster_of self.now).width (length block.now) (roster_of self.now).missing (T.Tray.meaning tray.old) column row.0 work.old }
        requires change { length change.old ≡ length block.now }
        ensures { Put (roster_of self.now).width (published (roster_of self.now).width) (length block.now) (out_of (roster_of self.now)) (T.Tray.meaning tray.old) column row.0 block.now (T.Tray.meaning tray.new) }
    {
        let size = block.len();
        self.hand(tray, column, row, work, change);
        add(change, 0, block);
        self.write_served(tray, column, row, block);
        self.add_to_parities(tray, row, column, change, &mut work[0..size]);
    }

    // Puts a block into a row of a data column, also where the column is out of service: it is written if the column is in
    // service, and what it changes is added to the parities in service.
    pub fn put<T: Tray>(
        &self,
        tray: &mut T,
        column: u32,
        row: u32,
        block: &[u8],
        work: &mut [u8],
    ) -> Result<(), Fault>
        ensures value { result ≡ reaching (roster_of self.now) (T.Tray.meaning tray.old) column row (length block.now) (length work.old) }
        ensures done { PutsOn (roster_of self.now) (T.Tray.meaning tray.old) column row block.now result (T.Tray.meaning tray.new) }
        ensures work { Spares work.old result work.new }
        ensures carries { CarriesOn (roster_of self.now) (T.Tray.meaning tray.old) (T.Tray.sized tray.old) (told result (sent column row block.now)) (roster_of self.now) (T.Tray.meaning tray.new) (T.Tray.sized tray.new) }
    {
        self.check_place(tray, column, row, block.len(), work.len())?;
        let mut scratch = Scratch::new();
        let change = scratch.block(self.size());
        self.exchange(tray, column, Row(row), block, change, work);
        Ok(())
    }
}
