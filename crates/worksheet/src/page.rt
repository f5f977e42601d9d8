// The parts of a workbook page.
ghost use Rattle.worksheet.specs.Arguments.{NamesWidth};

use code::neighbours::is_right;
use code::places::{Line, Row};
use code::widths::{is_width, rows_of};
use std::fmt;

// The width that an argument names, if it names one.
pub fn width_of(text: &str) -> Option<u32>
    ensures { NamesWidth text.now result }
{
    text.parse().ok().filter(|&k| is_width(k))
}

// The right neighbours of one data column.
#[derive(Drop)]
struct Neighbours {
    k: u32,
    column: u32,
}

impl fmt::Display for Neighbours {
    fn fmt<W: fmt::Write>(&self, f: &mut fmt::Formatter<W>) -> fmt::Result {
        write!(f, "{:>4}:", self.column)?;
        for other in (0..self.k).filter(|&other| is_right(self.k, self.column, other)) {
            write!(f, " {other}")?;
        }
        Ok(())
    }
}

// One row of the dark map, a mark for each data column.
#[derive(Drop)]
struct Marks {
    k: u32,
    row: Row,
}

impl fmt::Display for Marks {
    fn fmt<W: fmt::Write>(&self, f: &mut fmt::Formatter<W>) -> fmt::Result {
        write!(f, "{:>4}:", self.row.0)?;
        for column in 0..self.k {
            write!(f, " {}", if self.row.is_dark(column) { '#' } else { '.' })?;
        }
        Ok(())
    }
}

// What a page says of a width before it comes to the lines.
#[derive(Drop)]
pub struct Page(pub u32);

impl fmt::Display for Page {
    fn fmt<W: fmt::Write>(&self, f: &mut fmt::Formatter<W>) -> fmt::Result {
        let k = self.0;
        let rows = rows_of(k);
        writeln!(
            f,
            "Width {k}: {k} data columns of {rows} rows, and {rows} lines"
        )?;
        writeln!(f)?;
        writeln!(f, "Right neighbours of each data column:")?;
        for column in 0..k {
            writeln!(f, "{}", Neighbours { k, column })?;
        }
        writeln!(f)?;
        writeln!(f, "Dark places (#) of each row, by data column:")?;
        for row in (0..rows).map(Row) {
            writeln!(f, "{}", Marks { k, row })?;
        }
        writeln!(f)?;
        write!(f, "Places (row,column) that each line sums:")
    }
}

// A line with the places that it sums.
#[derive(Drop)]
pub struct Sum {
    pub line: Line,
    pub places: Vec<(u32, u32)>,
}

impl fmt::Display for Sum {
    fn fmt<W: fmt::Write>(&self, f: &mut fmt::Formatter<W>) -> fmt::Result {
        write!(f, "{:>4}:", self.line.0)?;
        for (row, column) in &self.places {
            write!(f, " ({row},{column})")?;
        }
        Ok(())
    }
}
