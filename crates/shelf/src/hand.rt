// The data at hand: the block of a data place, also where its column is out of service.
ghost use Rattle.std.specs.Prelude.{◌≡◌, true, false, length};
ghost use Rattle.tray.specs.Meaning.{tallied};
ghost use Rattle.code.specs.Neighbours.{published};
ghost use Rattle.law.specs.Holding.{Calm};
ghost use Rattle.law.specs.Hand.{AtHand};
ghost use Rattle.shelf.specs.Missing.{is_full};
ghost use Rattle.shelf.specs.Rosters.{roster_of, out_of};
ghost use Rattle.shelf.specs.Hands.{Reach};

use crate::bench::Bench;
use crate::blocks::fetch;
use crate::recover::slot_for;
use crate::regain::regain_block;
use crate::roster::Roster;
use code::places::Row;
use tray::trays::Tray;

impl Roster {
    // The block of a data column that is out with another one: both are found, by way of the block, and one row is copied.
    fn hand_solved<T: Tray>(
        &self,
        tray: &mut T,
        column: u32,
        row: Row,
        work: &mut [u8],
        block: &mut [u8],
    )
        requires reach { Reach (roster_of self.now).width (length block.old) (roster_of self.now).missing (T.Tray.meaning tray.old) column row.0 work.old }
        requires missing { out_of (roster_of self.now) column ≡ true }
        requires full { is_full (roster_of self.now).missing ≡ true }
        ensures at_hand { AtHand (roster_of self.now).width (published (roster_of self.now).width) (length block.old) (out_of (roster_of self.now)) (T.Tray.meaning tray.old) row.0 column block.new }
        ensures calm { Calm (T.Tray.meaning tray.old) (T.Tray.meaning tray.new) }
    {
        let k = self.width();
        let mut bench = Bench { k, block, work };
        let by = bench.recover(tray, self.missing());
        bench.copy_slot(slot_for(k, by, column, row));
    }

    // The block of a data column that alone is out. The work space lends a block of scratch space.
    fn hand_sole<T: Tray>(
        &self,
        tray: &mut T,
        column: u32,
        row: Row,
        work: &mut [u8],
        block: &mut [u8],
    )
        requires reach { Reach (roster_of self.now).width (length block.old) (roster_of self.now).missing (T.Tray.meaning tray.old) column row.0 work.old }
        requires missing { out_of (roster_of self.now) column ≡ true }
        requires sole { is_full (roster_of self.now).missing ≡ false }
        ensures at_hand { AtHand (roster_of self.now).width (published (roster_of self.now).width) (length block.old) (out_of (roster_of self.now)) (T.Tray.meaning tray.old) row.0 column block.new }
        ensures calm { Calm (T.Tray.meaning tray.old) (T.Tray.meaning tray.new) }
    {
        let size = block.len();
        regain_block(tray, self.width(), column, row, &mut work[0..size], block);
    }

    // Fills a block with the data at hand in a row of a data column. A column in service counts as the tray holds it, and
    // only this one block is read.
    pub(crate) fn hand<T: Tray>(
        &self,
        tray: &mut T,
        column: u32,
        row: Row,
        work: &mut [u8],
        block: &mut [u8],
    )
        requires { Reach (roster_of self.now).width (length block.old) (roster_of self.now).missing (T.Tray.meaning tray.old) column row.0 work.old }
        ensures at_hand { AtHand (roster_of self.now).width (published (roster_of self.now).width) (length block.old) (out_of (roster_of self.now)) (T.Tray.meaning tray.old) row.0 column block.new }
        ensures calm { Calm (T.Tray.meaning tray.old) (T.Tray.meaning tray.new) }
        ensures one_read { out_of (roster_of self.now) column ≡ false → (T.Tray.meaning tray.new).tally ≡ (tallied (T.Tray.meaning tray.old) column).tally }
    {
        let out = self.missing();
        if !out.is_out(column) {
            fetch(tray, column, row.0, block);
        } else if out.is_full() {
            self.hand_solved(tray, column, row, work, block);
        } else {
            self.hand_sole(tray, column, row, work, block);
        }
    }
}
