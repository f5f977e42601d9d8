// A drill: one column is out of service while it lasts, so that a class sees its blocks come back, and is in service
// again at its end (in the field's words, a guard over a degraded read). Only gets are made inside: the guard has the
// roster lent, so no other call on the shelf passes the check before the drill has ended.
ghost use Rattle.std.specs.Prelude.{◌≡◌, true, length};
ghost use Rattle.tray.specs.Meaning.{if_ok};
ghost use Rattle.law.specs.Promises.{Spares, told_inside};
ghost use Rattle.shelf.specs.Missing.{keeps};
ghost use Rattle.shelf.specs.Rosters.{roster_of, taken_out};
ghost use Rattle.shelf.specs.Checks.{pulling, reaching};
ghost use Rattle.shelf.specs.Promises.{PullsOn, GetsOn, CarriesInsideOn};
ghost use Rattle.shelf.specs.Drills.{ended, DrillCarries};

use crate::roster::Roster;
use tray::fault::Fault;
use tray::trays::Tray;

// `taken` is the refusal of a drill that is idle: it took nothing out, and restores nothing.
pub struct Drill<'a> {
    roster: &'a mut Roster,
    column: u32,
    taken: Result<(), Fault>,
}

impl Drop for Drill<'_> {
    fn drop(self)
        ensures { roster_of self.exit.0.now ≡ ended self.entry.taken self.entry.column (roster_of self.entry.roster.now) }
    {
        let column = self.column;
        if self.taken.is_ok() {
            self.roster.put_back(column);
        }
        let Drill {
            roster: _,
            column: _,
            taken: _,
        } = self;
    }
}

impl Roster {
    // Begins a drill of a column, data or parity. Where the column cannot be taken out the drill is idle.
    pub fn drill(&mut self, column: u32) -> Drill<'_>
        ensures taken { result.taken ≡ pulling (roster_of self.old) column }
        ensures column { result.column ≡ column }
        ensures roster { roster_of result.roster.now ≡ if_ok result.taken (taken_out (roster_of self.old) column) (roster_of self.old) }
        ensures undone { ended result.taken result.column (roster_of result.roster.now) ≡ roster_of self.old }
        ensures lender { result.roster.ghost_name ≡ self.entry.ghost_name }
        ensures done { PullsOn (roster_of self.old) column result.taken (roster_of result.roster.now) }
        ensures carries { DrillCarries (roster_of self.old) column result.taken (roster_of result.roster.now) }
    {
        let taken = self.pull(column);
        Drill {
            roster: self,
            column,
            taken,
        }
    }
}

impl Drill<'_> {
    // Whether the drill took its column out, or why it is idle.
    pub fn taken(&self) -> Result<(), Fault>
        ensures value { result ≡ self.now.taken }
        ensures kept { keeps (roster_of self.now.roster.now).width (roster_of self.now.roster.now).size (roster_of self.now.roster.now).missing ≡ true }
    {
        self.taken
    }

    // A get inside the drill: with the drilled column out, or in an idle drill on the roster as it stands.
    pub fn get<T: Tray>(
        &self,
        tray: &mut T,
        column: u32,
        row: u32,
        block: &mut [u8],
        work: &mut [u8],
    ) -> Result<(), Fault>
        ensures value { result ≡ reaching (roster_of self.now.roster.now) (T.Tray.meaning tray.old) column row (length block.old) (length work.old) }
        ensures done { GetsOn (roster_of self.now.roster.now) (T.Tray.meaning tray.old) column row block.old result block.new (T.Tray.meaning tray.new) }
        ensures work { Spares work.old result work.new }
        ensures carries { CarriesInsideOn (roster_of self.now.roster.now) (T.Tray.meaning tray.old) (T.Tray.sized tray.old) (told_inside result column row) (T.Tray.meaning tray.new) (T.Tray.sized tray.new) }
    {
        self.roster.get(tray, column, row, block, work)
    }
}
