// Sums of rows and lines in the work space: a block is added wherever the rules say that its place counts.
ghost use Rattle.std.specs.Prelude.{◌≡◌, ◌+◌, ◌<◌, ◌&&◌, ◌==◌, slice_index};
ghost use Rattle.code.specs.Numbers.{only};
ghost use Rattle.code.specs.Code.{rows, meets};
ghost use Rattle.code.specs.Neighbours.{published};
ghost use Rattle.shelf.specs.Slots.{nothing, to_skip, passes, to_lines};

use crate::bench::Bench;
use code::lines::is_taken;
use code::places::{Line, Row};
use code::widths::Width;

// The slot of a line.
pub(crate) fn line_slot(k: Width, line: Line) -> usize
    ensures { result ≡ rows k.number + line.0 }
{
    k.rows() as usize + line.0 as usize
}

// Whether a block of the place in `column` goes to the line that meets the column `through` in this row.
fn is_passed(k: Width, row: Row, column: u32, skip: Option<u32>, through: u32) -> bool
    requires { through < k.number }
    ensures { result ≡ passes (published k.number) row.0 column (to_skip k.number skip) through }
{
    skip != Some(through) && is_taken(k.number, row, through, column)
}

impl<'a> Bench<'a> {
    ghost use Rattle.shelf.specs.Benches.{Adds, AddsPlace};

    // Adds the block, of the place in `column`, to the line that meets the column `through` in this row, if it goes there.
    fn add_through(&mut self, row: Row, column: u32, skip: Option<u32>, through: u32)
        requires row { row.0 < rows self.old.k.number }
        requires through { through < self.old.k.number }
        ensures { Adds nothing (λ b n. only (n == meets row.0 through && passes (published self.old.k.number) row.0 column (to_skip self.old.k.number skip) through) (slice_index self.old.block.now b)) self.old self.new }
    {
        if is_passed(self.k, row, column, skip, through) {
            self.add(line_slot(self.k, row.line(through)));
        }
    }

    // Adds the block, of the place in `column`, to every line that holds it, but for the one that meets the column to skip in
    // this row. (`parities::add_to_lines` adds to a tray; of one function over a closure for the step, nothing would be known
    // of what the step changed.)
    pub(crate) fn add_to_lines(&mut self, row: Row, column: u32, skip: Option<u32>)
        requires { row.0 < rows self.old.k.number }
        ensures { Adds nothing (to_lines self.old.k.number (published self.old.k.number) row.0 column (to_skip self.old.k.number skip) self.old.block.now) self.old self.new }
    {
        for through in 0..self.k.number {
            self.add_through(row, column, skip, through);
        }
    }

    // Adds the block, of the place in `column`, to the sum of its row, and to those of the lines that hold it.
    pub(crate) fn add_place(&mut self, row: Row, column: u32)
        requires row { row.0 < rows self.old.k.number }
        requires column { column < self.old.k.number }
        ensures { AddsPlace row.0 column self.old self.new }
    {
        self.add(row.0 as usize);
        self.add_to_lines(row, column, None);
    }
}
