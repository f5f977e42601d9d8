// The parities of a data place: a change of its block is added to the sum of its row, and to every line that holds it.
ghost use Rattle.std.specs.Prelude.{◌≡◌, ◌+◌, ◌<◌, length};
ghost use Rattle.code.specs.Code.{rows};
ghost use Rattle.code.specs.Neighbours.{published};
ghost use Rattle.shelf.specs.Rosters.{roster_of, out_of};
ghost use Rattle.shelf.specs.Blocks.{Ready};
ghost use Rattle.shelf.specs.Reading.{Answers, Heard};
ghost use Rattle.shelf.specs.Parities.{AddedAt, only_at, line_by, line_places, places_in_service, parities_of};

use crate::blocks::{fetch, place};
use crate::roster::Roster;
use crate::slots::add;
use code::lines::is_taken;
use code::places::Row;
use code::widths::Width;
use tray::trays::Tray;

// Adds a block to one of the tray, by way of a block of scratch space.
fn add_at<T: Tray>(tray: &mut T, column: u32, row: u32, block: &[u8], scratch: &mut [u8])
    requires ready { Ready (T.Tray.meaning tray.old) column row (length block.now) }
    requires scratch { length scratch.old ≡ length block.now }
    ensures { AddedAt (length block.now) (T.Tray.meaning tray.old) block.now (only_at column row) (T.Tray.meaning tray.new) }
{
    fetch(tray, column, row, scratch);
    add(scratch, 0, block);
    place(tray, column, row, scratch);
}

// Adds a change of the place in `column` to the line that meets the column `through` in this row, if its sum holds the place.
fn add_to_line<T: Tray>(
    tray: &mut T,
    k: Width,
    row: Row,
    column: u32,
    through: u32,
    block: &[u8],
    scratch: &mut [u8],
)
    requires answers { Answers k.number (length block.now) (T.Tray.meaning tray.old) (k.number + 1) }
    requires row { row.0 < rows k.number }
    requires through { through < k.number }
    requires scratch { length scratch.old ≡ length block.now }
    ensures { AddedAt (length block.now) (T.Tray.meaning tray.old) block.now (line_by k.number (published k.number) row.0 column through) (T.Tray.meaning tray.new) }
{
    if is_taken(k.number, row, through, column) {
        add_at(tray, k.number + 1, row.line(through).0, block, scratch);
    }
}

// Adds a change of the place in `column` to every line whose sum holds it.
fn add_to_lines<T: Tray>(
    tray: &mut T,
    k: Width,
    row: Row,
    column: u32,
    block: &[u8],
    scratch: &mut [u8],
)
    requires answers { Answers k.number (length block.now) (T.Tray.meaning tray.old) (k.number + 1) }
    requires row { row.0 < rows k.number }
    requires scratch { length scratch.old ≡ length block.now }
    ensures { AddedAt (length block.now) (T.Tray.meaning tray.old) block.now (line_places k.number (published k.number) row.0 column) (T.Tray.meaning tray.new) }
{
    for through in 0..k.number {
        add_to_line(tray, k, row, column, through, block, scratch);
    }
}

impl Roster {
    // Adds a change of a place in this row to the row's sum, if that is in service.
    fn add_to_sum<T: Tray>(&self, tray: &mut T, row: Row, block: &[u8], scratch: &mut [u8])
        requires heard { Heard (roster_of self.now).width (length block.now) (out_of (roster_of self.now)) (T.Tray.meaning tray.old) }
        requires row { row.0 < rows (roster_of self.now).width }
        requires scratch { length scratch.old ≡ length block.now }
        ensures { AddedAt (length block.now) (T.Tray.meaning tray.old) block.now (places_in_service (out_of (roster_of self.now)) (only_at (roster_of self.now).width row.0)) (T.Tray.meaning tray.new) }
    {
        let k = self.width();
        if !self.missing().is_out(k.number) {
            add_at(tray, k.number, row.0, block, scratch);
        }
    }

    // Adds a change of the place in `column` to its parities that are in service.
    pub(crate) fn add_to_parities<T: Tray>(
        &self,
        tray: &mut T,
        row: Row,
        column: u32,
        block: &[u8],
        scratch: &mut [u8],
    )
        requires heard { Heard (roster_of self.now).width (length block.now) (out_of (roster_of self.now)) (T.Tray.meaning tray.old) }
        requires row { row.0 < rows (roster_of self.now).width }
        requires scratch { length scratch.old ≡ length block.now }
        ensures { AddedAt (length block.now) (T.Tray.meaning tray.old) block.now (parities_of (roster_of self.now).width (published (roster_of self.now).width) (out_of (roster_of self.now)) row.0 column) (T.Tray.meaning tray.new) }
    {
        let k = self.width();
        self.add_to_sum(tray, row, block, scratch);
        if !self.missing().is_out(k.number + 1) {
            add_to_lines(tray, k, row, column, block, scratch);
        }
    }
}
