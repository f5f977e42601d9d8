// One get inside a drill, as a call of its own.
ghost use Rattle.std.specs.Prelude.{◌≡◌, length};
ghost use Rattle.law.specs.Promises.{Spares};
ghost use Rattle.shelf.specs.Rosters.{roster_of};
ghost use Rattle.shelf.specs.Promises.{CarriesOn};
ghost use Rattle.shelf.specs.Rehearsals.{rehearsing, RehearsesOn, rehearsed};

use crate::roster::Roster;
use tray::fault::Fault;
use tray::trays::Tray;

impl Roster {
    // Fills a block with the data at hand while one column is drilled, and leaves the roster as it was. A refused drill is
    // told, and then no get is made.
    pub fn rehearse<T: Tray>(
        &mut self,
        tray: &mut T,
        drilled: u32,
        column: u32,
        row: u32,
        block: &mut [u8],
        work: &mut [u8],
    ) -> Result<(), Fault>
        ensures value { result ≡ rehearsing (roster_of self.old) (T.Tray.meaning tray.old) drilled column row (length block.old) (length work.old) }
        ensures same { roster_of self.new ≡ roster_of self.old }
        ensures done { RehearsesOn (roster_of self.old) (T.Tray.meaning tray.old) drilled column row block.old result block.new (T.Tray.meaning tray.new) }
        ensures work { Spares work.old result work.new }
        ensures carries { CarriesOn (roster_of self.old) (T.Tray.meaning tray.old) (T.Tray.sized tray.old) (rehearsed (roster_of self.old) drilled column row result) (roster_of self.new) (T.Tray.meaning tray.new) (T.Tray.sized tray.new) }
    {
        let drill = self.drill(drilled);
        drill.taken()?;
        drill.get(tray, column, row, block, work)
    }
}
