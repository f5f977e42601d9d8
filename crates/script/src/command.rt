// The commands of an exam script. A command keeps its operands as parts of the script: the numbers are read from them
// when it runs.
ghost use Rattle.std.specs.Prelude.{◌≡◌};
ghost use Rattle.script.specs.Commands.{word, number_of, place_of, plan_of};

use crate::source::Source;

// A number in two bytes, the high one first.
#[derive(Clone, Copy, PartialEq, Eq, Debug)]
pub struct Number<'a> {
    pub high: &'a u8,
    pub low: &'a u8,
}

impl Number<'_> {
    pub fn value(self) -> u32
        ensures { result ≡ number_of self.entry }
    {
        u32::from(u16::from_be_bytes([*self.high, *self.low]))
    }
}

// A row of a column.
#[derive(Clone, Copy, PartialEq, Eq, Debug)]
pub struct Place<'a> {
    pub column: &'a u8,
    pub row: Number<'a>,
}

impl<'a> Place<'a> {
    // The place whose operand bytes these are, the row's high one first.
    pub(crate) fn new(column: &'a u8, high: &'a u8, low: &'a u8) -> Place<'a>
        ensures { place_of result ≡ (column.now, word high.now low.now) }
    {
        let row = Number { high, low };
        Place { column, row }
    }

    // The column and the row, as numbers.
    pub fn numbers(self) -> (u32, u32)
        ensures { result ≡ place_of self.entry }
    {
        (u32::from(*self.column), self.row.value())
    }
}

// The width of a shelf and the size of its blocks.
#[derive(Clone, Copy, PartialEq, Eq, Debug)]
pub struct Plan<'a> {
    pub width: &'a u8,
    pub size: Number<'a>,
}

impl<'a> Plan<'a> {
    // The plan whose operand bytes these are, the size's high one first.
    pub(crate) fn new(width: &'a u8, high: &'a u8, low: &'a u8) -> Plan<'a>
        ensures { plan_of result ≡ (width.now, word high.now low.now) }
    {
        let size = Number { high, low };
        Plan { width, size }
    }
}

#[derive(Clone, Copy, PartialEq, Eq, Debug)]
pub enum Command<'a> {
    // L: lays the shelf out.
    Layout(Plan<'a>),
    // X: takes a column out of service.
    Pull { column: &'a u8 },
    // R: rebuilds a column.
    Rebuild { column: &'a u8 },
    // S: compares both parities with the data.
    Sweep,
    // G: shows a block.
    Get(Place<'a>),
    // P and Q: puts a block, of the script or of the sheet.
    Put(Place<'a>, Source<'a>),
    // D: shows a block while a column is drilled.
    Drill { drilled: &'a u8, place: Place<'a> },
    // U: makes a column silent by a 0, and by any other byte has it answer.
    Switch { column: &'a u8, flag: &'a u8 },
    // F: puts a block of one byte in every row of a column.
    Fill { column: &'a u8, byte: &'a u8 },
}
