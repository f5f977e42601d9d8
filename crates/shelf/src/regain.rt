// A data column that alone is out, found by reading half of every other column: the rows that are dark for it, and the
// lines through its white places.
ghost use Rattle.std.specs.Prelude.{◌≡◌, ◌+◌, ◌-◌, ◌<◌, true, not, length, if◌then◌else◌, ◌==◌, bit_xor, nat_eq};
ghost use Rattle.code.specs.Numbers.{only, count};
ghost use Rattle.code.specs.Code.{spot, rows, dark, meets};
ghost use Rattle.code.specs.Neighbours.{published};
ghost use Rattle.law.specs.Holding.{held, Calm};
ghost use Rattle.law.specs.Hand.{others, by_row, regained, Bytes};
ghost use Rattle.shelf.specs.Reading.{after_reads, times};
ghost use Rattle.shelf.specs.Regaining.{Alone, once_below, of_rows, row_of, below, unless, half_of, BytesAdded, wants, taken};
ghost use Rattle.shelf.specs.Blocks.{Ready};

use crate::bench::Bench;
use crate::blocks::fetch;
use crate::slots::add;
use crate::sums::line_slot;
use code::lines::is_taken;
use code::places::{Line, Row};
use code::widths::Width;
use tray::trays::Tray;

// ---- the whole column

impl<'a> Bench<'a> {
    ghost use Rattle.shelf.specs.Benches.{AddsRow, FindsRow, HasLines, ReadsLines, IsHalfway, GetsHalfway, FindsSole, size_of};

    // Reads a row of a data column, unless it is the lost one, and adds the block to the sum of the row, and to those of the
    // lines that hold it, but for the line through the lost place.
    fn add_other<T: Tray>(&mut self, tray: &mut T, lost: u32, row: Row, column: u32)
        requires alone { Alone self.old.k.number (size_of self.old) (T.Tray.meaning tray.old) lost }
        requires row { row.0 < rows self.old.k.number }
        requires column { column < self.old.k.number }
        ensures tray { T.Tray.meaning tray.new ≡ after_reads (T.Tray.meaning tray.old) (times column (if nat_eq column lost then 0 else 1)) }
        ensures work { AddsRow row.0 lost (unless (T.Tray.meaning tray.old) row.0 lost column) (λ b. spot row.0 column (unless (T.Tray.meaning tray.old) row.0 lost column b)) self.old self.new }
    {
        if column != lost {
            self.fetch_block(tray, column, row.0);
            self.add(row.0 as usize);
            self.add_to_lines(row, column, Some(lost));
        }
    }

    // The same for every data column: the row of the lost one is left to find.
    fn add_others<T: Tray>(&mut self, tray: &mut T, lost: u32, row: Row)
        requires alone { Alone self.old.k.number (size_of self.old) (T.Tray.meaning tray.old) lost }
        requires row { row.0 < rows self.old.k.number }
        ensures tray { T.Tray.meaning tray.new ≡ after_reads (T.Tray.meaning tray.old) (once_below lost self.old.k.number) }
        ensures work { AddsRow row.0 lost (λ b. others self.old.k.number lost (held (T.Tray.meaning tray.old) b row.0)) (λ b. row_of row.0 (below lost self.old.k.number (held (T.Tray.meaning tray.old) b))) self.old self.new }
    {
        for column in 0..self.k.number {
            self.add_other(tray, lost, row, column);
        }
    }

    // Finds a row of the lost column by the row's sum, in the slot of the row, and adds the whole row to the lines that hold
    // its places, but for the line through the lost place.
    fn regain_row<T: Tray>(&mut self, tray: &mut T, lost: u32, row: Row)
        requires alone { Alone self.old.k.number (size_of self.old) (T.Tray.meaning tray.old) lost }
        requires row { row.0 < rows self.old.k.number }
        ensures tray { T.Tray.meaning tray.new ≡ after_reads (T.Tray.meaning tray.old) (of_rows self.old.k.number lost 1) }
        ensures work { FindsRow lost (held (T.Tray.meaning tray.old)) row.0 self.old self.new }
    {
        self.fetch_slot(tray, self.k.number, row.0, row.0 as usize);
        self.add_others(tray, lost, row);
        self.copy_slot(row.0 as usize);
        self.add_to_lines(row, lost, Some(lost));
    }

    // Goes on to the next row: if it is dark for the lost column, its place there is found.
    #[tactic(auto, using(crate::proofs::Benching::kept_none, crate::proofs::Halfway::on_dark, crate::proofs::Halfway::on_white))]
    fn regain_if_dark<T: Tray>(&mut self, tray: &mut T, lost: u32, row: Row)
        requires alone { Alone self.old.k.number (size_of self.old) (T.Tray.meaning tray.old) lost }
        requires row { row.0 < rows self.old.k.number }
        requires halfway { IsHalfway lost (held (T.Tray.meaning tray.old)) row.0 self.old }
        ensures tray { T.Tray.meaning tray.new ≡ after_reads (T.Tray.meaning tray.old) (of_rows self.old.k.number lost (if dark row.0 lost then 1 else 0)) }
        ensures work { GetsHalfway lost (held (T.Tray.meaning tray.old)) (row.0 + 1) self.old self.new }
    {
        if row.is_dark(lost) {
            self.regain_row(tray, lost, row);
        }
    }

    // Finds the dark rows of the lost column, where the lines through its white places are read already; these lines are then
    // left with the white places alone.
    #[tactic(auto, using(crate::proofs::Benching::kept_none, crate::proofs::Halfway::rows_none, crate::proofs::Halfway::halfway_none), unfolding(code::specs::Numbers::count))]
    fn regain_rows<T: Tray>(&mut self, tray: &mut T, lost: u32)
        requires alone { Alone self.old.k.number (size_of self.old) (T.Tray.meaning tray.old) lost }
        requires lines { HasLines lost (held (T.Tray.meaning tray.old)) (rows self.old.k.number) self.old }
        ensures tray { T.Tray.meaning tray.new ≡ after_reads (T.Tray.meaning tray.old) (of_rows self.old.k.number lost (count (rows self.old.k.number) (λ i. dark i lost))) }
        ensures work { GetsHalfway lost (held (T.Tray.meaning tray.old)) (rows self.old.k.number) self.old self.new }
    {
        for row in 0..self.k.rows() {
            self.regain_if_dark(tray, lost, Row(row));
        }
    }

    // Goes on to the next row: if it is white for the lost column, the line through its place there is read.
    #[tactic(auto, using(code::proofs::Limits::a_width, code::proofs::Rows::meets_lt, crate::proofs::Regaining::may_read))]
    fn read_if_white<T: Tray>(&mut self, tray: &mut T, lost: u32, row: Row)
        requires alone { Alone self.old.k.number (size_of self.old) (T.Tray.meaning tray.old) lost }
        requires row { row.0 < rows self.old.k.number }
        requires lines { HasLines lost (held (T.Tray.meaning tray.old)) row.0 self.old }
        ensures tray { T.Tray.meaning tray.new ≡ after_reads (T.Tray.meaning tray.old) (times (self.old.k.number + 1) (if dark row.0 lost then 0 else 1)) }
        ensures work { ReadsLines lost (held (T.Tray.meaning tray.old)) (row.0 + 1) self.old self.new }
    {
        if !row.is_dark(lost) {
            let line = row.line(lost);
            self.fetch_slot(tray, self.k.number + 1, line.0, line_slot(self.k, line));
        }
    }

    // Reads the lines through the white places of the lost column.
    fn read_lines<T: Tray>(&mut self, tray: &mut T, lost: u32)
        requires { Alone self.old.k.number (size_of self.old) (T.Tray.meaning tray.old) lost }
        ensures tray { T.Tray.meaning tray.new ≡ after_reads (T.Tray.meaning tray.old) (times (self.old.k.number + 1) (rows self.old.k.number - count (rows self.old.k.number) (λ i. dark i lost))) }
        ensures work { ReadsLines lost (held (T.Tray.meaning tray.old)) (rows self.old.k.number) self.old self.new }
    {
        for row in 0..self.k.rows() {
            self.read_if_white(tray, lost, Row(row));
        }
    }

    // Finds a data column that alone is out, reading half of every other column. Row i of it then lies in the slot of row i
    // if the place is dark, else in the slot of the line through it.
    pub(crate) fn regain<T: Tray>(&mut self, tray: &mut T, column: u32)
        requires { Alone self.old.k.number (size_of self.old) (T.Tray.meaning tray.old) column }
        ensures tray { T.Tray.meaning tray.new ≡ after_reads (T.Tray.meaning tray.old) (half_of self.old.k.number column) }
        ensures work { FindsSole column (held (T.Tray.meaning tray.old)) self.old self.new }
    {
        self.read_lines(tray, column);
        self.regain_rows(tray, column);
    }
}

// ---- one block

// Reads a block if it is wanted, and adds it to another.
fn add_if<T: Tray>(
    tray: &mut T,
    wanted: bool,
    column: u32,
    row: Row,
    scratch: &mut [u8],
    block: &mut [u8],
)
    requires ready { wanted ≡ true → Ready (T.Tray.meaning tray.old) column row.0 (length scratch.old) }
    requires scratch { length scratch.old ≡ length block.old }
    ensures tray { Calm (T.Tray.meaning tray.old) (T.Tray.meaning tray.new) }
    ensures block { BytesAdded (length block.old) block.old (λ b. only wanted (held (T.Tray.meaning tray.old) b row.0 column)) block.new }
{
    if wanted {
        fetch(tray, column, row.0, scratch);
        add(block, 0, scratch);
    }
}

// Whether the block of a column has to be added for what a line takes where it meets the column `through` in this row.
fn is_wanted(k: Width, row: Row, through: u32, lost: u32, column: u32) -> bool
    ensures { result ≡ wants (published k.number) row.0 through lost column }
{
    column != lost
        && is_taken(k.number, row, through, column) != is_taken(k.number, row, through, lost)
}

// Adds to a block what a line takes where it meets the data column `through` in this row, with the lost column by the
// row's sum. No block is read twice.
fn add_taken<T: Tray>(
    tray: &mut T,
    k: Width,
    lost: u32,
    row: Row,
    through: u32,
    scratch: &mut [u8],
    block: &mut [u8],
)
    requires alone { Alone k.number (length block.old) (T.Tray.meaning tray.old) lost }
    requires scratch { length scratch.old ≡ length block.old }
    requires row { row.0 < rows k.number }
    requires through { through < k.number }
    ensures tray { Calm (T.Tray.meaning tray.old) (T.Tray.meaning tray.new) }
    ensures block { BytesAdded (length block.old) block.old (λ b. taken k.number (published k.number) (held (T.Tray.meaning tray.old) b) lost row.0 through) block.new }
{
    add_if(
        tray,
        is_taken(k.number, row, through, lost),
        k.number,
        row,
        scratch,
        block,
    );
    for column in 0..k.number {
        add_if(
            tray,
            is_wanted(k, row, through, lost, column),
            column,
            row,
            scratch,
            block,
        );
    }
}

// The same for a line and a data column, unless that is the lost one.
fn add_meeting<T: Tray>(
    tray: &mut T,
    k: Width,
    lost: u32,
    line: Line,
    through: u32,
    scratch: &mut [u8],
    block: &mut [u8],
)
    requires alone { Alone k.number (length block.old) (T.Tray.meaning tray.old) lost }
    requires scratch { length scratch.old ≡ length block.old }
    requires line { line.0 < rows k.number }
    requires through { through < k.number }
    ensures tray { Calm (T.Tray.meaning tray.old) (T.Tray.meaning tray.new) }
    ensures block { BytesAdded (length block.old) block.old (λ b. only (not (through == lost)) (taken k.number (published k.number) (held (T.Tray.meaning tray.old) b) lost (meets line.0 through) through)) block.new }
{
    if through != lost {
        add_taken(
            tray,
            k,
            lost,
            line.meeting(through),
            through,
            scratch,
            block,
        );
    }
}

// Fills a block with what a line and the blocks in its sum say of the place where it meets the lost column.
fn regain_by_line<T: Tray>(
    tray: &mut T,
    k: Width,
    lost: u32,
    line: Line,
    scratch: &mut [u8],
    block: &mut [u8],
)
    requires alone { Alone k.number (length block.old) (T.Tray.meaning tray.old) lost }
    requires scratch { length scratch.old ≡ length block.old }
    requires line { line.0 < rows k.number }
    ensures tray { Calm (T.Tray.meaning tray.old) (T.Tray.meaning tray.new) }
    ensures block { Bytes (length block.old) block.new (λ b. bit_xor (held (T.Tray.meaning tray.old) b line.0 (k.number + 1)) (others k.number lost (λ c. taken k.number (published k.number) (held (T.Tray.meaning tray.old) b) lost (meets line.0 c) c))) }
{
    fetch(tray, k.number + 1, line.0, block);
    for through in 0..k.number {
        add_meeting(tray, k, lost, line, through, scratch, block);
    }
}

// Fills a block with what the row's sum and the other data blocks say of a row of the lost column.
fn regain_by_row<T: Tray>(
    tray: &mut T,
    k: Width,
    lost: u32,
    row: Row,
    scratch: &mut [u8],
    block: &mut [u8],
)
    requires alone { Alone k.number (length block.old) (T.Tray.meaning tray.old) lost }
    requires scratch { length scratch.old ≡ length block.old }
    requires row { row.0 < rows k.number }
    ensures tray { Calm (T.Tray.meaning tray.old) (T.Tray.meaning tray.new) }
    ensures block { Bytes (length block.old) block.new (λ b. by_row k.number (held (T.Tray.meaning tray.old) b) lost row.0) }
{
    fetch(tray, k.number, row.0, block);
    for column in 0..k.number {
        add_if(tray, column != lost, column, row, scratch, block);
    }
}

// Fills a block with a row of a data column that alone is out, from its row or its line only.
pub(crate) fn regain_block<T: Tray>(
    tray: &mut T,
    k: Width,
    column: u32,
    row: Row,
    scratch: &mut [u8],
    block: &mut [u8],
)
    requires alone { Alone k.number (length block.old) (T.Tray.meaning tray.old) column }
    requires scratch { length scratch.old ≡ length block.old }
    requires row { row.0 < rows k.number }
    ensures tray { Calm (T.Tray.meaning tray.old) (T.Tray.meaning tray.new) }
    ensures block { Bytes (length block.old) block.new (λ b. regained k.number (published k.number) (held (T.Tray.meaning tray.old) b) column row.0) }
{
    if row.is_dark(column) {
        regain_by_row(tray, k, column, row, scratch, block);
    } else {
        regain_by_line(tray, k, column, row.line(column), scratch, block);
    }
}
