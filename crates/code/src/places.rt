// Rows and lines, and the places where they cross the data columns.
ghost use Rattle.std.specs.Prelude.{◌≡◌, ◌*◌, ◌^◌, ◌<◌, ◌≤◌, min, not, bit_xor};
ghost use Rattle.code.specs.Numbers.{count};
ghost use Rattle.code.specs.Code.{dark, meets};

// A row of the columns. A row and a line number run over one range, and name different things.
#[derive(Clone, Copy, PartialEq, Eq, Debug)]
pub struct Row(pub u32);

// A line: a diagonal that meets each data column in one row. Its butterfly block lies in the row of its number.
#[derive(Clone, Copy, PartialEq, Eq, Debug)]
pub struct Line(pub u32);

// The one map between rows and lines, which is its own inverse: it turns the bits below the column, and from column 32 on
// all bits.
fn cross(n: u32, column: u32) -> u32
    ensures { result ≡ meets n (min column 32) }
{
    n ^ 1u32.unbounded_shl(column).wrapping_sub(1)
}

impl Line {
    // The row in which the line meets a data column.
    pub fn meeting(self, column: u32) -> Row
        ensures within { column ≤ 32 → result.0 ≡ meets self.0 column }
        ensures beyond { 32 < column → result.0 ≡ meets self.0 32 }
    {
        Row(cross(self.0, column))
    }
}

impl Row {
    // The line that meets a data column in this row.
    pub fn line(self, column: u32) -> Line
        ensures within { column ≤ 32 → result.0 ≡ meets self.0 column }
        ensures beyond { 32 < column → result.0 ≡ meets self.0 32 }
    {
        Line(cross(self.0, column))
    }

    // The row's Gray code: the bits that differ from the one under them.
    #[tactic(auto, using(crate::proofs::Rows::gray_below))]
    fn gray(self) -> u64
        ensures value { result ≡ bit_xor self.0 (self.0 * 2) }
        ensures below { result < 2 ^ 33 }
    {
        let row = u64::from(self.0);
        row ^ (row << 1)
    }

    // Whether the place in this row of a column is dark: the row's bit there and the one under it are the same.
    pub fn is_dark(self, column: u32) -> bool
        ensures { result ≡ dark self.0 column }
    {
        self.gray().unbounded_shr(column) & 1 == 0
    }

    // At how many columns the row is white.
    #[tactic(auto, using(crate::proofs::Rows::white_ones))]
    pub fn whites(self) -> u32
        ensures { result ≡ count 33 (λ j. not (dark self.0 j)) }
    {
        self.gray().count_ones()
    }
}
