// Solves two lost columns on the bench, once the sums of what is in service stand there.
ghost use Rattle.std.specs.Prelude.{◌≡◌, ◌+◌, ◌<◌, true, false, if◌then◌else◌};
ghost use Rattle.code.specs.Code.{dark, rows};
ghost use Rattle.code.specs.Laws.{rank};
ghost use Rattle.code.specs.Neighbours.{published};
ghost use Rattle.shelf.specs.Solving.{before, Pair};

use crate::bench::Bench;
use crate::sums::line_slot;
use code::places::Row;
use code::widths::Width;

// 1 where the place in a row of a column is white, else 0.
fn white(row: Row, column: u32) -> u32
    ensures { result ≡ (if dark row.0 column then 0 else 1) }
{
    u32::from(!row.is_dark(column))
}

// The rank of a row: rows of lower rank are settled before it.
fn rank_of(k: Width, p: u32, q: u32, row: Row) -> u32
    requires row { row.0 < rows k.number }
    requires pair { Pair k.number (published k.number) p q }
    ensures { result ≡ rank k.number p q row.0 }
{
    let others = row.whites() - white(row, p) - white(row, q);
    2 * others + (1 - white(row, q))
}

impl<'a> Bench<'a> {
    ghost use Rattle.shelf.specs.Benches.{Spreads, Settles, Leads};

    // Adds what the row slots hold, as blocks of a data column, to the lines that hold them.
    pub(crate) fn spread(&mut self, column: u32)
        requires { column < self.old.k.number }
        ensures { Spreads column self.old self.new }
    {
        for row in 0..self.k.rows() {
            self.copy_slot(row as usize);
            self.add_to_lines(Row(row), column, None);
        }
    }

    // Settles a row of which all of lower rank are settled: its line has its block of column p, which goes off the other sums.
    fn settle(&mut self, p: u32, q: u32, row: Row)
        requires row { row.0 < rows self.old.k.number }
        requires p { p < self.old.k.number }
        ensures { Settles p q row.0 self.old self.new }
    {
        self.copy_slot(line_slot(self.k, row.line(p)));
        self.add(row.0 as usize);
        self.add_to_lines(row, p, Some(p));
        self.add_to_lines(row, q, None);
    }

    // Settles a row if it has this rank.
    fn settle_at(&mut self, p: u32, q: u32, at: u32, row: Row)
        requires row { row.0 < rows self.old.k.number }
        requires pair { Pair self.old.k.number (published self.old.k.number) p q }
        ensures { Leads p q (before self.old.k.number p q at row.0) (before self.old.k.number p q at (row.0 + 1)) self.old self.new }
    {
        if rank_of(self.k, p, q, row) == at {
            self.settle(p, q, row);
        }
    }

    // Settles the rows of one rank.
    fn settle_rank(&mut self, p: u32, q: u32, at: u32)
        requires { Pair self.old.k.number (published self.old.k.number) p q }
        ensures { Leads p q (before self.old.k.number p q at 0) (before self.old.k.number p q (at + 1) 0) self.old self.new }
    {
        for row in 0..self.k.rows() {
            self.settle_at(p, q, at, Row(row));
        }
    }

    // Settles all rows, by rising rank.
    pub(crate) fn solve(&mut self, p: u32, q: u32)
        requires { Pair self.old.k.number (published self.old.k.number) p q }
        ensures { Leads p q (λ _. false) (λ _. true) self.old self.new }
    {
        for at in 0..2 * self.k.number + 2 {
            self.settle_rank(p, q, at);
        }
    }
}
