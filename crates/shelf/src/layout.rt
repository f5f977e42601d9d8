// The layout of a shelf on a tray, which every program begins with.
ghost use Rattle.std.specs.Prelude.{◌≡◌, ℕ, ◌<◌, ◌≤◌, length, replicate, OnErr};
ghost use Rattle.law.specs.Promises.{Lays};
ghost use Rattle.law.specs.Law.{LawOfShelves};
ghost use Rattle.shelf.specs.Blocks.{Ready};
ghost use Rattle.shelf.specs.Wiped.{wiped_column, wiped};
ghost use Rattle.shelf.specs.Layouts.{made_of, laying_out, Begins};

use crate::blocks::place;
use crate::roster::{MOST_SIZE, Roster};
use tray::fault::Fault;
use tray::trays::Tray;

static ZEROS: [u8; MOST_SIZE as usize] = [0; MOST_SIZE as usize];

// A block of zeros.
fn zeros(size: u32) -> &'static [u8]
    requires { size ≤ MOST_SIZE }
    ensures { result.now ≡ replicate size 0 }
{
    &ZEROS[0..size as usize]
}

// Writes a block to every row of a column.
fn wipe_column<T: Tray>(tray: &mut T, column: u32, rows: u32, block: &[u8])
    requires { (i : ℕ) → i < rows → Ready (T.Tray.meaning tray.old) column i (length block.now) }
    ensures { T.Tray.meaning tray.new ≡ wiped_column (T.Tray.meaning tray.old) column rows block.now }
{
    for row in 0..rows {
        place(tray, column, row, block);
    }
}

// Writes a block to every place.
fn wipe<T: Tray>(tray: &mut T, columns: u32, rows: u32, block: &[u8])
    requires { (c i : ℕ) → c < columns → i < rows → Ready (T.Tray.meaning tray.old) c i (length block.now) }
    ensures { T.Tray.meaning tray.new ≡ wiped (T.Tray.meaning tray.old) columns rows block.now }
{
    for column in 0..columns {
        wipe_column(tray, column, rows, block);
    }
}

impl Roster {
    // Lays a shelf of `width` data columns and blocks of `size` bytes out on a tray: writes zeros everywhere, and answers
    // a roster with no column out. From here on the law of shelves stands of every run of calls.
    pub fn layout<T: Tray>(tray: &mut T, width: u32, size: u32) -> Result<Roster, Fault>
        ensures value { made_of result ≡ laying_out width size (T.Tray.meaning tray.old) }
        ensures done { Lays width size (T.Tray.meaning tray.old) result (T.Tray.meaning tray.new) }
        ensures begins { Begins result (T.Tray.meaning tray.new) (T.Tray.sized tray.new) }
        ensures spared { OnErr result (tray.new ≡ tray.old) }
        ensures law { LawOfShelves }
    {
        let roster = Roster::new(width, size)?;
        roster.check_layout(tray)?;
        wipe(tray, roster.columns(), roster.rows(), zeros(roster.size()));
        Ok(roster)
    }
}
