// What callers know once a tray that they made has ended.
ghost use Rattle.std.specs.Prelude.{◌≡◌, length};
ghost use Rattle.tray.specs.FlatTrays.{new_flat, written};
ghost use Rattle.tray.specs.Meaning.{verdict, stored, if_ok};

use tray::fault::Fault;
use tray::flat::Flat;
use tray::lent::Lent;
use tray::trays::{Shape, Tray};

// Makes a flat tray over a memory, writes one block and lets the tray go: the memory then holds the
// block at its place and is otherwise as it was.
pub fn stamp(
    shape: Shape,
    cells: &mut [u8],
    column: u32,
    row: u32,
    block: &[u8],
) -> Result<(), Fault>
    ensures value { result ≡ verdict (new_flat shape.columns shape.rows shape.size cells.old) column row (length block.now) }
    ensures cells { cells.new ≡ if_ok result (written (new_flat shape.columns shape.rows shape.size cells.old) column row block.now cells.old) cells.old }
{
    let mut tray = Flat::new(shape, cells);
    tray.write(column, row, block)
}

// Switches a flag and reads a block through a flat tray that ends here: the memory stays as it was.
pub fn peek(
    shape: Shape,
    cells: &mut [u8],
    column: u32,
    row: u32,
    block: &mut [u8],
) -> Result<(), Fault>
    ensures { cells.new ≡ cells.old }
{
    let mut tray = Flat::new(shape, cells);
    tray.switch(column, true)?;
    tray.read(column, row, block)
}

// Writes through a lent tray that ends here: the tray behind it has the block.
pub fn lend<T: Tray>(tray: &mut T, column: u32, row: u32, block: &[u8]) -> Result<(), Fault>
    ensures value { result ≡ verdict (T.Tray.meaning tray.old) column row (length block.now) }
    ensures after { T.Tray.meaning tray.new ≡ if_ok result (stored (T.Tray.meaning tray.old) column row block.now) (T.Tray.meaning tray.old) }
{
    let mut lent = Lent::new(tray);
    lent.write(column, row, block)
}
