// The flat tray: blocks in a caller's memory, column after column and row after row within a column.
ghost use Rattle.std.specs.Prelude.{◌≡◌, ◌+◌, ◌<◌, ◌≤◌, cond, length, OnOk};
ghost use Rattle.tray.specs.Limits.{has_room};
ghost use Rattle.tray.specs.Meaning.{Ready, verdict, asked, tallied, stored, switched, if_ok};

use crate::fault::Fault;
use crate::trays::{Shape, Tray};

mod columns;

use columns::Column;

// The limits of a flat tray.
pub const MAX_COLUMNS: u32 = 13;

pub const MAX_ROWS: u32 = 1024;

pub const MAX_SIZE: u32 = 512;

// The shape that was asked for, the record of each column, and the memory. The shape counts only within the limits and
// where the memory has room for it; otherwise the tray is empty. (No ghost field says that there is room: beside a `&mut`
// it would keep arrays of flat trays from being proved.)
#[derive(Drop)]
pub struct Flat<'a> {
    shape: Shape,
    table: [Column; MAX_COLUMNS as usize],
    cells: &'a mut [u8],
}

impl Shape {
    // This shape where it is within the limits and `len` bytes have room for it, and else the empty one.
    fn fitting(self, len: usize) -> Shape
        ensures { result ≡ cond (has_room self.columns self.rows self.size len) self Shape.EMPTY }
    {
        let fits = self.columns <= MAX_COLUMNS
            && self.rows <= MAX_ROWS
            && self.size <= MAX_SIZE
            && self.columns as usize * self.rows as usize * self.size as usize <= len;
        if fits { self } else { Shape::EMPTY }
    }
}

impl<'a> Flat<'a> {
    ghost use Rattle.tray.specs.FlatTrays.{start_of, written, flat_of, new_flat, SameCells};

    // A tray over `cells`, whose bytes are its blocks: every column answers, and none was read. It
    // is empty where the shape is beyond the limits or the memory is too little.
    pub fn new(shape: Shape, cells: &'a mut [u8]) -> Flat<'a>
        ensures value { flat_of result ≡ new_flat shape.columns shape.rows shape.size cells.old }
        ensures cells { result.cells.now ≡ cells.old }
        ensures lender { result.cells.ghost_name ≡ cells.entry.ghost_name }
    {
        Flat {
            shape,
            table: [Column::NEW; MAX_COLUMNS as usize],
            cells,
        }
    }

    // Makes the tray anew over its memory, in another shape: every column answers, and none was read.
    pub fn renew(&mut self, shape: Shape)
        ensures after { flat_of self.new ≡ new_flat shape.columns shape.rows shape.size self.old.cells.now }
        ensures cells { SameCells self.old self.new }
    {
        self.shape = shape;
        self.table = [Column::NEW; MAX_COLUMNS as usize];
    }

    // Sets whether a column answers. Only the column is checked.
    pub fn switch(&mut self, column: u32, on: bool) -> Result<(), Fault>
        ensures value { result ≡ asked (flat_of self.old) column tt }
        ensures after { flat_of self.new ≡ if_ok result (switched (flat_of self.old) column on) (flat_of self.old) }
        ensures cells { SameCells self.old self.new }
    {
        self.shape().check_column(column)?;
        self.table[column as usize].switch(on);
        Ok(())
    }

    // Whether a read or a write with `len` bytes is accepted.
    fn judge(&self, column: u32, row: u32, len: usize) -> Result<(), Fault>
        ensures value { result ≡ verdict (flat_of self.now) column row len }
        ensures ready { OnOk result (Ready (flat_of self.now) column row len) }
    {
        self.shape().check_place(column, row, len)?;
        if !self.table[column as usize].answers() {
            return Err(Fault::silent(column));
        }
        Ok(())
    }

    // Where the block of a place starts.
    fn start(&self, column: u32, row: u32) -> usize
        requires column { column < (flat_of self.now).columns }
        requires row { row < (flat_of self.now).rows }
        ensures value { result ≡ start_of (flat_of self.now).rows (flat_of self.now).size column row }
        ensures bound { result + (flat_of self.now).size ≤ length self.now.cells.now }
    {
        let shape = self.shape();
        (column as usize * shape.rows as usize + row as usize) * shape.size as usize
    }

    // Fills a buffer with the block of a place.
    fn load(&self, column: u32, row: u32, buffer: &mut [u8])
        requires { Ready (flat_of self.now) column row (length buffer.old) }
        ensures { buffer.new ≡ (flat_of self.now).block column row }
    {
        let at = self.start(column, row);
        let end = at + buffer.len();
        buffer.copy_from_slice(&self.cells[at..end]);
    }

    // Puts a block into the memory at a place.
    fn store(&mut self, column: u32, row: u32, block: &[u8])
        requires { Ready (flat_of self.old) column row (length block.now) }
        ensures after { flat_of self.new ≡ stored (flat_of self.old) column row block.now }
        ensures cells { self.new.cells.now ≡ written (flat_of self.old) column row block.now self.old.cells.now }
        ensures lender { self.new.cells.ghost_name ≡ self.old.cells.ghost_name }
    {
        let at = self.start(column, row);
        let end = at + block.len();
        self.cells[at..end].copy_from_slice(block);
    }
}

// Each method has the trait's own clauses, and says besides what the memory holds and that it stays
// the caller's, so that the caller knows its bytes once the tray has ended.
impl<'a> Tray for Flat<'a> {
    ghost use Rattle.tray.specs.FlatTrays.{written, flat_of, SameCells};
    ghost use Rattle.tray.specs.FlatOwes.{flat_sized, flat_wraps};

    ghost meaning = { flat_of };

    ghost sized = { flat_sized };

    ghost wraps = { flat_wraps };

    fn shape(&self) -> Shape {
        self.shape.fitting(self.cells.len())
    }

    fn answers(&self, column: u32) -> Result<bool, Fault> {
        self.shape().check_column(column)?;
        Ok(self.table[column as usize].answers())
    }

    fn tally(&self, column: u32) -> Result<u32, Fault> {
        self.shape().check_column(column)?;
        Ok(self.table[column as usize].tally())
    }

    fn read(&mut self, column: u32, row: u32, buffer: &mut [u8]) -> Result<(), Fault>
        ensures value { result ≡ verdict (flat_of self.old) column row (length buffer.old) }
        ensures after { flat_of self.new ≡ if_ok result (tallied (flat_of self.old) column) (flat_of self.old) }
        ensures bytes { buffer.new ≡ if_ok result ((flat_of self.old).block column row) buffer.old }
        ensures cells { SameCells self.old self.new }
    {
        self.judge(column, row, buffer.len())?;
        self.load(column, row, buffer);
        self.table[column as usize].count();
        Ok(())
    }

    fn write(&mut self, column: u32, row: u32, buffer: &[u8]) -> Result<(), Fault>
        ensures value { result ≡ verdict (flat_of self.old) column row (length buffer.now) }
        ensures after { flat_of self.new ≡ if_ok result (stored (flat_of self.old) column row buffer.now) (flat_of self.old) }
        ensures cells { self.new.cells.now ≡ if_ok result (written (flat_of self.old) column row buffer.now self.old.cells.now) self.old.cells.now }
        ensures lender { self.new.cells.ghost_name ≡ self.old.cells.ghost_name }
    {
        self.judge(column, row, buffer.len())?;
        self.store(column, row, buffer);
        Ok(())
    }
}
