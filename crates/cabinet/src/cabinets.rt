// The cabinet: its shape, and a drawer for each column.
ghost use Rattle.std.specs.Prelude.{◌≡◌, length, All, IfOk};
ghost use Rattle.tray.specs.Meaning.{Ready, tallied, stored};
ghost use Rattle.cabinet.specs.Drawers.{IsFresh, Stocked};

use crate::drawers::Drawer;
use std::alloc::{AllocError, Global};
use tray::fault::Fault;
use tray::trays::{Shape, Tray};

// There are as many drawers as columns, and each has room for all rows.
#[derive(Drop)]
pub struct Cabinet {
    shape: Shape,
    drawers: Vec<Drawer>,
    ghost stocked: { Stocked shape drawers.items },
}

impl Cabinet {
    ghost use Rattle.cabinet.specs.Cabinets.{cabinet_of, blank};

    // A cabinet of any shape, its blocks all zeros, or an error where there is no memory for it.
    pub fn new(heap: Global, shape: Shape) -> Result<Cabinet, AllocError>
        ensures { IfOk result (λ t. cabinet_of t ≡ blank shape.columns shape.rows shape.size) }
    {
        let len = shape.rows as usize * shape.size as usize;
        let drawers = Cabinet::stock(heap, shape.columns, len)?;
        Ok(Cabinet { shape, drawers })
    }

    // So many drawers of `len` zeros, or an error where there is no memory for them.
    fn stock(heap: Global, columns: u32, len: usize) -> Result<Vec<Drawer>, AllocError>
        ensures many { IfOk result (λ v. length v.items ≡ columns) }
        ensures fresh { IfOk result (λ v. All (IsFresh len) v.items) }
    {
        (0..columns)
            .map(|_| -> Result<Drawer, AllocError> { Drawer::new(heap, len) })
            .try_collect(heap)
    }

    // Fills a buffer with the block of a place, and counts the read.
    fn load(&mut self, column: u32, row: u32, buffer: &mut [u8])
        requires { Ready (cabinet_of self.old) column row (length buffer.old) }
        ensures after { cabinet_of self.new ≡ tallied (cabinet_of self.old) column }
        ensures bytes { buffer.new ≡ (cabinet_of self.old).block column row }
    {
        let at = row as usize * self.shape.size as usize;
        self.drawers[column as usize].load(at, buffer);
    }

    // Puts a block at a place.
    fn store(&mut self, column: u32, row: u32, block: &[u8])
        requires { Ready (cabinet_of self.old) column row (length block.now) }
        ensures { cabinet_of self.new ≡ stored (cabinet_of self.old) column row block.now }
    {
        let at = row as usize * self.shape.size as usize;
        self.drawers[column as usize].store(at, block);
    }
}

impl Tray for Cabinet {
    ghost use Rattle.cabinet.specs.Cabinets.{cabinet_of};
    ghost use Rattle.cabinet.specs.Owes.{cabinet_sized, cabinet_wraps};

    ghost meaning = { cabinet_of };

    ghost sized = { cabinet_sized };

    ghost wraps = { cabinet_wraps };

    fn shape(&self) -> Shape {
        self.shape
    }

    // Every column answers.
    fn answers(&self, column: u32) -> Result<bool, Fault> {
        self.shape.check_column(column)?;
        Ok(true)
    }

    fn tally(&self, column: u32) -> Result<u32, Fault> {
        self.shape.check_column(column)?;
        Ok(self.drawers[column as usize].tally())
    }

    fn read(&mut self, column: u32, row: u32, buffer: &mut [u8]) -> Result<(), Fault> {
        self.shape.check_place(column, row, buffer.len())?;
        self.load(column, row, buffer);
        Ok(())
    }

    fn write(&mut self, column: u32, row: u32, buffer: &[u8]) -> Result<(), Fault> {
        self.shape.check_place(column, row, buffer.len())?;
        self.store(column, row, buffer);
        Ok(())
    }
}
