// The get of a data block.
ghost use Rattle.std.specs.Prelude.{◌≡◌, length};
ghost use Rattle.law.specs.Runs.{get as asked};
ghost use Rattle.law.specs.Promises.{Spares, told};
ghost use Rattle.shelf.specs.Rosters.{roster_of};
ghost use Rattle.shelf.specs.Checks.{reaching};
ghost use Rattle.shelf.specs.Promises.{GetsOn, CarriesOn};

use crate::roster::Roster;
use code::places::Row;
use tray::fault::Fault;
use tray::trays::Tray;

impl Roster {
    // Fills a block with the data at hand in a row of a data column, also where the column is out of service. The block of
    // a column in service is read alone.
    pub fn get<T: Tray>(
        &self,
        tray: &mut T,
        column: u32,
        row: u32,
        block: &mut [u8],
        work: &mut [u8],
    ) -> Result<(), Fault>
        ensures value { result ≡ reaching (roster_of self.now) (T.Tray.meaning tray.old) column row (length block.old) (length work.old) }
        ensures done { GetsOn (roster_of self.now) (T.Tray.meaning tray.old) column row block.old result block.new (T.Tray.meaning tray.new) }
        ensures work { Spares work.old result work.new }
        ensures carries { CarriesOn (roster_of self.now) (T.Tray.meaning tray.old) (T.Tray.sized tray.old) (told result (asked column row)) (roster_of self.now) (T.Tray.meaning tray.new) (T.Tray.sized tray.new) }
    {
        self.check_place(tray, column, row, block.len(), work.len())?;
        self.hand(tray, column, Row(row), work, block);
        Ok(())
    }
}
