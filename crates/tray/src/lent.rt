// The lent tray: another tray behind a `&mut`, so that a tray can be handed over by value, as a half
// of a split tray or to code that takes a tray of its own, and still be kept.
ghost use Rattle.std.specs.Prelude.{◌≡◌, length};
ghost use Rattle.tray.specs.Meaning.{verdict, tallied, stored, if_ok};

use crate::fault::Fault;
use crate::trays::{Shape, Tray};

#[derive(Drop)]
pub struct Lent<'a, T> {
    tray: &'a mut T,
}

impl<'a, T: Tray> Lent<'a, T> {
    // It stands for the very tray that is lent, which changes with it.
    pub fn new(tray: &'a mut T) -> Lent<'a, T>
        ensures lender { result.tray.ghost_name ≡ tray.entry.ghost_name }
        ensures value { result.tray.now ≡ tray.old }
    {
        Lent { tray }
    }
}

// Each method has the trait's own clauses, and says besides that the same tray stays lent, so that
// whoever lent it knows what it means once the lent tray has ended.
impl<'a, T: Tray> Tray for Lent<'a, T> {
    ghost meaning = { λ t. T.Tray.meaning t.tray.now };

    ghost sized = { λ t. T.Tray.sized t.tray.now };

    ghost wraps = { λ t. T.Tray.wraps t.tray.now };

    fn shape(&self) -> Shape {
        self.tray.shape()
    }

    fn answers(&self, column: u32) -> Result<bool, Fault> {
        self.tray.answers(column)
    }

    fn tally(&self, column: u32) -> Result<u32, Fault> {
        self.tray.tally(column)
    }

    fn read(&mut self, column: u32, row: u32, buffer: &mut [u8]) -> Result<(), Fault>
        ensures value { result ≡ verdict (T.Tray.meaning self.old.tray.now) column row (length buffer.old) }
        ensures after { T.Tray.meaning self.new.tray.now ≡ if_ok result (tallied (T.Tray.meaning self.old.tray.now) column) (T.Tray.meaning self.old.tray.now) }
        ensures bytes { buffer.new ≡ if_ok result ((T.Tray.meaning self.old.tray.now).block column row) buffer.old }
        ensures lender { self.new.tray.ghost_name ≡ self.old.tray.ghost_name }
    {
        self.tray.read(column, row, buffer)
    }

    fn write(&mut self, column: u32, row: u32, buffer: &[u8]) -> Result<(), Fault>
        ensures value { result ≡ verdict (T.Tray.meaning self.old.tray.now) column row (length buffer.now) }
        ensures after { T.Tray.meaning self.new.tray.now ≡ if_ok result (stored (T.Tray.meaning self.old.tray.now) column row buffer.now) (T.Tray.meaning self.old.tray.now) }
        ensures lender { self.new.tray.ghost_name ≡ self.old.tray.ghost_name }
    {
        self.tray.write(column, row, buffer)
    }
}
