// How tallies count: modulo 2^32, for every make.
ghost use Rattle.std.specs.Prelude.{◌≡◌, ◌+◌, ◌-◌, ◌%◌, ◌^◌, OnOk};

use tray::fault::Fault;
use tray::trays::Tray;

// Reads a block so many times: that many more on the column's tally, and one that stood at its
// highest starts over at 0.
pub fn read_times<T: Tray>(
    tray: &mut T,
    column: u32,
    row: u32,
    buffer: &mut [u8],
    times: u32,
) -> Result<(), Fault>
    ensures count { OnOk result ((T.Tray.meaning tray.new).tally column ≡ ((T.Tray.meaning tray.old).tally column + times) % 2 ^ 32) }
    ensures wrap { OnOk result ((T.Tray.meaning tray.old).tally column ≡ 2 ^ 32 - 1 → times ≡ 1 → (T.Tray.meaning tray.new).tally column ≡ 0) }
{
    for _read in 0..times {
        tray.read(column, row, buffer)?;
    }
    Ok(())
}
