// A block put in every row of a column.
ghost use Rattle.std.specs.Prelude.{◌≡◌, length, MatchResult};
ghost use Rattle.code.specs.Code.{rows};
ghost use Rattle.law.specs.Promises.{Spares};
ghost use Rattle.shelf.specs.Rosters.{roster_of};
ghost use Rattle.shelf.specs.Checks.{reaching};
ghost use Rattle.lab.specs.Obeying.{Filled};

use shelf::roster::Roster;
use tray::fault::Fault;
use tray::trays::Tray;

// Puts a block in every row of a column: in all of them, or in none where the put in row 0 is refused.
pub(crate) fn fill<T: Tray>(
    roster: &Roster,
    tray: &mut T,
    column: u32,
    block: &[u8],
    work: &mut [u8],
) -> Result<(), Fault>
    ensures value { result ≡ reaching (roster_of roster.now) (T.Tray.meaning tray.old) column 0 (length block.now) (length work.old) }
    ensures done { MatchResult result (λ _. Filled (roster_of roster.now) column block.now (T.Tray.meaning tray.old) (rows (roster_of roster.now).width) (T.Tray.meaning tray.new)) (λ _. T.Tray.meaning tray.new ≡ T.Tray.meaning tray.old) }
    ensures work { Spares work.old result work.new }
{
    // where the first put is accepted, so are all the others
    roster.put(tray, column, 0, block, work)?;
    for row in 1..tray.shape().rows {
        roster.put(tray, column, row, block, work)?;
    }
    Ok(())
}
