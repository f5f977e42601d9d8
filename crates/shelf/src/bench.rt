// The bench of a call: the width, a block to work in, and the work space, cut into slots of that size: one for each
// row, and behind them one for each line.
ghost use Rattle.std.specs.Prelude.{◌≡◌, ◌+◌, ◌<◌, length};
ghost use Rattle.tray.specs.Meaning.{tallied};
ghost use Rattle.code.specs.Code.{rows};
ghost use Rattle.law.specs.Holding.{held};
ghost use Rattle.shelf.specs.Blocks.{Ready};
ghost use Rattle.shelf.specs.Slots.{Room, SlotSet};

use crate::blocks::fetch;
use crate::slots::{add, copy_slot};
use code::widths::Width;
use tray::trays::Tray;

#[derive(Drop)]
pub(crate) struct Bench<'a> {
    pub(crate) k: Width,
    pub(crate) block: &'a mut [u8],
    pub(crate) work: &'a mut [u8],
    ghost room: { Room k.number (length block.now) work.now },
}

impl<'a> Bench<'a> {
    ghost use Rattle.shelf.specs.Benches.{Kept, SlotAdds, SlotCopied, BlockRead, size_of};

    // Adds the block to a slot.
    pub(crate) fn add(&mut self, slot: usize)
        requires { slot < rows self.old.k.number + rows self.old.k.number }
        ensures { SlotAdds slot self.old self.new }
    {
        // lent as `&mut`, since the proof loses what lies behind a field that is lent shared
        let block = &mut *self.block;
        let work = &mut *self.work;
        add(work, slot, block);
    }

    // Copies a slot into the block.
    pub(crate) fn copy_slot(&mut self, slot: usize)
        requires { slot < rows self.old.k.number + rows self.old.k.number }
        ensures { SlotCopied slot self.old self.new }
    {
        let work = &mut *self.work;
        let block = &mut *self.block;
        copy_slot(work, slot, block);
    }

    // Reads a block of a tray into the block.
    pub(crate) fn fetch_block<T: Tray>(&mut self, tray: &mut T, column: u32, row: u32)
        requires { Ready (T.Tray.meaning tray.old) column row (size_of self.old) }
        ensures tray { T.Tray.meaning tray.new ≡ tallied (T.Tray.meaning tray.old) column }
        ensures work { BlockRead ((T.Tray.meaning tray.old).block column row) self.old self.new }
    {
        fetch(tray, column, row, self.block);
    }

    // Reads a block of a tray straight into a slot.
    pub(crate) fn fetch_slot<T: Tray>(&mut self, tray: &mut T, column: u32, row: u32, slot: usize)
        requires ready { Ready (T.Tray.meaning tray.old) column row (size_of self.old) }
        requires within { slot < rows self.old.k.number + rows self.old.k.number }
        ensures kept { Kept self.old self.new }
        ensures block { self.new.block.now ≡ self.old.block.now }
        ensures tray { T.Tray.meaning tray.new ≡ tallied (T.Tray.meaning tray.old) column }
        ensures work { SlotSet (size_of self.old) self.old.work.now slot (λ b. held (T.Tray.meaning tray.old) b row column) self.new.work.now }
    {
        let size = self.block.len();
        let at = slot * size;
        fetch(tray, column, row, &mut self.work[at..at + size]);
    }
}
