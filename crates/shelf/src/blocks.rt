// Blocks of a tray that a call has checked: reads and writes that are not refused.
ghost use Rattle.std.specs.Prelude.{◌≡◌, length};
ghost use Rattle.tray.specs.Meaning.{tallied, stored};
ghost use Rattle.shelf.specs.Blocks.{Ready};

use tray::trays::Tray;

// Reads a block.
pub(crate) fn fetch<T: Tray>(tray: &mut T, column: u32, row: u32, block: &mut [u8])
    requires { Ready (T.Tray.meaning tray.old) column row (length block.old) }
    ensures tray { T.Tray.meaning tray.new ≡ tallied (T.Tray.meaning tray.old) column }
    ensures block { block.new ≡ (T.Tray.meaning tray.old).block column row }
{
    tray.read(column, row, block).unwrap();
}

// Writes a block.
pub(crate) fn place<T: Tray>(tray: &mut T, column: u32, row: u32, block: &[u8])
    requires { Ready (T.Tray.meaning tray.old) column row (length block.now) }
    ensures { T.Tray.meaning tray.new ≡ stored (T.Tray.meaning tray.old) column row block.now }
{
    tray.write(column, row, block).unwrap();
}
