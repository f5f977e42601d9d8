// The split tray: two trays of any make side by side, the left one's columns first.
ghost use Rattle.std.specs.Prelude.{◌≡◌};
ghost use Rattle.tray.specs.SplitTrays.{split_of, half_of, answer_at};
ghost use Rattle.tray.specs.SplitOwes.{split_sized, split_wraps};

use crate::fault::Fault;
use crate::trays::{Shape, Tray};

// How many columns the two halves have together at most: a limit of its own, beside the flat tray's.
pub const MAX_COLUMNS: u32 = 13;

// Two trays by value. The split tray is empty where they differ in rows or block size, or have too
// many columns together.
#[derive(Drop)]
pub struct Split<L, R> {
    left: L,
    right: R,
}

// The half in which a column lies, with the column's number there.
enum Half {
    Left(u32),
    Right(u32),
}

impl<L: Tray, R: Tray> Split<L, R> {
    pub fn new(left: L, right: R) -> Split<L, R>
        ensures value { split_of (L.Tray.meaning result.left) (R.Tray.meaning result.right) ≡ split_of (L.Tray.meaning left) (R.Tray.meaning right) }
        ensures left { result.left ≡ left }
        ensures right { result.right ≡ right }
    {
        Split { left, right }
    }

    fn half(&self, column: u32) -> Half
        ensures { result ≡ half_of (L.Tray.meaning self.now.left) column }
    {
        let left = self.left.shape().columns;
        if column < left {
            Half::Left(column)
        } else {
            Half::Right(column - left)
        }
    }
}

// An answer of the right half, whose fault tells the column by the split tray's number.
fn renamed(answer: Result<(), Fault>, column: u32) -> Result<(), Fault>
    ensures { result ≡ answer_at answer column }
{
    answer.map_err(|fault| fault.at(column))
}

impl<L: Tray, R: Tray> Tray for Split<L, R> {
    ghost meaning = { λ t. split_of (L.Tray.meaning t.left) (R.Tray.meaning t.right) };

    ghost sized = { λ t. split_sized (L.Tray.meaning t.left) (R.Tray.meaning t.right) (L.Tray.sized t.left) (R.Tray.sized t.right) };

    ghost wraps = { λ t. split_wraps (L.Tray.meaning t.left) (R.Tray.meaning t.right) (L.Tray.wraps t.left) (R.Tray.wraps t.right) };

    fn shape(&self) -> Shape {
        let left = self.left.shape();
        let right = self.right.shape();
        let columns = left.columns.saturating_add(right.columns);
        if left.rows == right.rows && left.size == right.size && columns <= MAX_COLUMNS {
            Shape { columns, ..left }
        } else {
            Shape::EMPTY
        }
    }

    fn answers(&self, column: u32) -> Result<bool, Fault> {
        self.shape().check_column(column)?;
        match self.half(column) {
            Half::Left(at) => self.left.answers(at),
            Half::Right(at) => self.right.answers(at),
        }
    }

    fn tally(&self, column: u32) -> Result<u32, Fault> {
        self.shape().check_column(column)?;
        match self.half(column) {
            Half::Left(at) => self.left.tally(at),
            Half::Right(at) => self.right.tally(at),
        }
    }

    fn read(&mut self, column: u32, row: u32, buffer: &mut [u8]) -> Result<(), Fault> {
        self.shape().check_place(column, row, buffer.len())?;
        match self.half(column) {
            Half::Left(at) => self.left.read(at, row, buffer),
            Half::Right(at) => renamed(self.right.read(at, row, buffer), column),
        }
    }

    fn write(&mut self, column: u32, row: u32, buffer: &[u8]) -> Result<(), Fault> {
        self.shape().check_place(column, row, buffer.len())?;
        match self.half(column) {
            Half::Left(at) => self.left.write(at, row, buffer),
            Half::Right(at) => renamed(self.right.write(at, row, buffer), column),
        }
    }
}
