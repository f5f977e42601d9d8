// Columns that go out of service, and come back.
ghost use Rattle.std.specs.Prelude.{◌≡◌};
ghost use Rattle.tray.specs.Meaning.{if_ok};
ghost use Rattle.shelf.specs.Rosters.{roster_of, taken_out, back_in};
ghost use Rattle.shelf.specs.Checks.{pulling};
ghost use Rattle.shelf.specs.Promises.{PullsOn, PullCarries};

use crate::checks::pass;
use crate::roster::Roster;
use tray::fault::{Fault, Refusal};

impl Roster {
    // Whether a column can be taken out.
    fn check_pull(&self, column: u32) -> Result<(), Fault>
        ensures { result ≡ pulling (roster_of self.now) column }
    {
        let fault = |refusal| Fault::shelf(refusal, Some(column), None);
        pass(column < self.columns(), fault(Refusal::ColumnTooHigh))?;
        pass(!self.is_out(column), fault(Refusal::AlreadyOut))?;
        pass(!self.missing.is_full(), fault(Refusal::TwoOut))
    }

    // Takes a column out of service, data or parity, as long as fewer than two are out. Its blocks may be lost from now on.
    pub fn pull(&mut self, column: u32) -> Result<(), Fault>
        ensures value { result ≡ pulling (roster_of self.old) column }
        ensures after { roster_of self.new ≡ if_ok result (taken_out (roster_of self.old) column) (roster_of self.old) }
        ensures done { PullsOn (roster_of self.old) column result (roster_of self.new) }
        ensures carries { PullCarries (roster_of self.old) column result (roster_of self.new) }
    {
        self.check_pull(column)?;
        self.missing = self.missing.with(column);
        Ok(())
    }

    // Puts a column back into service.
    pub(crate) fn put_back(&mut self, column: u32)
        ensures { roster_of self.new ≡ back_in (roster_of self.old) column }
    {
        self.missing = self.missing.without(column);
    }
}
