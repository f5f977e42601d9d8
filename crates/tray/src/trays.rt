// Trays: stores of blocks in columns and rows, known by what they mean and not by how they are made.
ghost use Rattle.std.specs.Prelude.{◌≡◌, ◌<◌, length, OnOk};
ghost use Rattle.tray.specs.Meaning.{Meaning, Sized, Wraps, Ready, verdict, asked, tallied, stored, if_ok};
ghost use Rattle.tray.specs.Shapes.{all_answer};

use crate::fault::{Fault, Refusal};

// How many columns a tray has, how many rows a column has, and how many bytes a block has.
#[derive(Clone, Copy, PartialEq, Eq, Debug)]
pub struct Shape {
    pub columns: u32,
    pub rows: u32,
    pub size: u32,
}

impl Shape {
    // The shape of a tray that holds nothing.
    pub const EMPTY: Shape = Shape {
        columns: 0,
        rows: 0,
        size: 0,
    };

    pub fn new(columns: u32, rows: u32, size: u32) -> Shape
        ensures columns { result.columns ≡ columns }
        ensures rows { result.rows ≡ rows }
        ensures size { result.size ≡ size }
    {
        Shape {
            columns,
            rows,
            size,
        }
    }

    // The check of a question: is there such a column?
    pub fn check_column(self, column: u32) -> Result<(), Fault>
        ensures value { result ≡ asked (all_answer self) column tt }
        ensures known { OnOk result (column < self.columns) }
    {
        if column >= self.columns {
            return Err(Fault::tray(Refusal::ColumnTooHigh, Some(column), None));
        }
        Ok(())
    }

    // The checks of a read or a write in a tray of this shape, but for the column's silence: the
    // column, the row, and a buffer of `len` bytes.
    pub fn check_place(self, column: u32, row: u32, len: usize) -> Result<(), Fault>
        ensures value { result ≡ verdict (all_answer self) column row len }
        ensures ready { OnOk result (Ready (all_answer self) column row len) }
    {
        if column >= self.columns {
            return Err(Fault::tray(Refusal::ColumnTooHigh, Some(column), Some(row)));
        }
        if row >= self.rows {
            return Err(Fault::tray(Refusal::RowTooHigh, Some(column), Some(row)));
        }
        if len != self.size as usize {
            return Err(Fault::tray(Refusal::WrongBuffer, Some(column), Some(row)));
        }
        Ok(())
    }
}

// A tray of any make. Code above it is written once, for every `T: Tray`, and proved from the
// contracts below, which speak of the tray's meaning alone.
pub trait Tray {
    // What the tray means.
    ghost meaning: { Self → Meaning };

    // What every make owes: a block at a place of the shape has the shape's size,
    ghost sized: { (t : Self) → Sized (meaning t) };

    // and a tally is below 2^32.
    ghost wraps: { (t : Self) → Wraps (meaning t) };

    fn shape(&self) -> Shape
        ensures columns { result.columns ≡ (meaning self.now).columns }
        ensures rows { result.rows ≡ (meaning self.now).rows }
        ensures size { result.size ≡ (meaning self.now).size };

    // Whether a column answers. Only the column is checked, so a silent one is told too.
    fn answers(&self, column: u32) -> Result<bool, Fault>
        ensures { result ≡ asked (meaning self.now) column ((meaning self.now).answers column) };

    // How often a column was read, modulo 2^32.
    fn tally(&self, column: u32) -> Result<u32, Fault>
        ensures { result ≡ asked (meaning self.now) column ((meaning self.now).tally column) };

    // Fills a buffer of one block with the block of a place, and counts the read.
    fn read(&mut self, column: u32, row: u32, buffer: &mut [u8]) -> Result<(), Fault>
        ensures value { result ≡ verdict (meaning self.old) column row (length buffer.old) }
        ensures after { meaning self.new ≡ if_ok result (tallied (meaning self.old) column) (meaning self.old) }
        ensures bytes { buffer.new ≡ if_ok result ((meaning self.old).block column row) buffer.old };

    // Stores the block in a buffer at a place.
    fn write(&mut self, column: u32, row: u32, buffer: &[u8]) -> Result<(), Fault>
        ensures value { result ≡ verdict (meaning self.old) column row (length buffer.now) }
        ensures after { meaning self.new ≡ if_ok result (stored (meaning self.old) column row buffer.now) (meaning self.old) };
}
