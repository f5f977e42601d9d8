// The roster of a shelf: how wide the shelf is, how many bytes its blocks have, and which of its columns are out of
// service (failed or pulled drives, in the field's words). A shelf is a roster with the tray that it was laid out on.
ghost use Rattle.std.specs.Prelude.{◌≡◌, ◌+◌, ◌≤◌, true};
ghost use Rattle.shelf.specs.Missing.{keeps};

pub mod missing;
pub mod pull;
mod reads;

use code::widths::Width;
use missing::Missing;
use tray::fault::{Fault, Refusal};

// The most bytes that a block may have.
pub const MOST_SIZE: u32 = 512;

// It is moved and lent, and never copied, so that one shelf has one roster. Clauses see it by its parts (`roster_of`).
#[derive(Drop)]
pub struct Roster {
    width: Width,
    size: u32,
    missing: Missing,
    ghost kept: { keeps width.number size missing ≡ true },
}

impl Roster {
    ghost use Rattle.code.specs.Code.{rows};
    ghost use Rattle.shelf.specs.Rosters.{roster_of, out_of};
    ghost use Rattle.shelf.specs.Layouts.{made_of, making};

    // A roster with no column out, where width and block size are in their limits.
    pub(crate) fn new(width: u32, size: u32) -> Result<Roster, Fault>
        ensures { made_of result ≡ making width size }
    {
        match Width::new(width) {
            Some(width) if (1..=MOST_SIZE).contains(&size) => Ok(Roster {
                width,
                size,
                missing: Missing::Nothing,
            }),
            _ => Err(Fault::shelf(Refusal::OutsideLimits, None, None)),
        }
    }

    // The width: how many data columns there are.
    pub(crate) fn width(&self) -> Width
        ensures { result.number ≡ (roster_of self.now).width }
    {
        self.width
    }

    // The number of all columns: data and two parities.
    pub(crate) fn columns(&self) -> u32
        ensures value { result ≡ (roster_of self.now).width + 2 }
        ensures high { result ≤ 13 }
    {
        self.width.number + 2
    }

    // The number of rows of each column.
    pub(crate) fn rows(&self) -> u32
        ensures value { result ≡ rows (roster_of self.now).width }
        ensures high { result ≤ 1024 }
    {
        self.width.rows()
    }

    // The number of bytes of a block.
    pub fn size(&self) -> u32
        ensures value { result ≡ (roster_of self.now).size }
        ensures low { 1 ≤ result }
        ensures high { result ≤ 512 }
        ensures kept { keeps (roster_of self.now).width (roster_of self.now).size (roster_of self.now).missing ≡ true }
    {
        self.size
    }

    // The columns out of service.
    pub(crate) fn missing(&self) -> Missing
        ensures { result ≡ (roster_of self.now).missing }
    {
        self.missing
    }

    // Whether a column is out of service.
    pub(crate) fn is_out(&self, column: u32) -> bool
        ensures { result ≡ out_of (roster_of self.now) column }
    {
        self.missing.is_out(column)
    }
}
