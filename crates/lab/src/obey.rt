// What a lab does with a command.
ghost use Rattle.std.specs.Prelude.{◌≡◌, ◌≤◌, length, IfOk};
ghost use Rattle.script.specs.Commands.{operation_of};
ghost use Rattle.shelf.specs.Rosters.{roster_of};
ghost use Rattle.lab.specs.Labs.{held};
ghost use Rattle.lab.specs.Lines.{shown_block};
ghost use Rattle.lab.specs.Obeying.{Obeyed};

use crate::answer::Answer;
use crate::fill::fill;
use script::command::Command;
use shelf::roster::Roster;
use tray::fault::{Fault, Refusal};
use tray::flat::Flat;

// Makes the call that a command names. What a get shows is the block, which it filled.
pub(crate) fn obey<'b>(
    roster: &mut Roster,
    tray: &mut Flat<'_>,
    command: Command<'_>,
    sheet: &[u8],
    block: &'b mut [u8],
    work: &mut [u8],
) -> Result<Answer<'b>, Fault>
    requires { length block.old ≡ (roster_of roster.old).size }
    ensures done { Obeyed sheet.now (held roster.old tray.old) (operation_of command.entry) work.old result work.new (held roster.new tray.new) }
    ensures short { IfOk result (λ answer. length (shown_block answer) ≤ (roster_of roster.old).size) }
{
    match command {
        Command::Layout(_) => Err(Fault::script(Refusal::OutOfOrder)),
        Command::Pull { column } => {
            roster.pull(u32::from(*column))?;
            Ok(Answer::Done)
        }
        Command::Rebuild { column } => {
            let reads = roster.rebuild(tray, u32::from(*column), work)?;
            Ok(Answer::Count(reads))
        }
        Command::Sweep => {
            let found = roster.sweep(tray, work)?;
            Ok(Answer::Found(found))
        }
        Command::Get(place) => {
            let (column, row) = place.numbers();
            roster.get(tray, column, row, block, work)?;
            Ok(Answer::Block(block))
        }
        Command::Put(place, source) => {
            let (column, row) = place.numbers();
            let block = source.block(sheet, roster.size())?;
            roster.put(tray, column, row, block, work)?;
            Ok(Answer::Done)
        }
        Command::Drill { drilled, place } => {
            let (column, row) = place.numbers();
            let drilled = u32::from(*drilled);
            roster.rehearse(tray, drilled, column, row, block, work)?;
            Ok(Answer::Block(block))
        }
        Command::Switch { column, flag } => {
            tray.switch(u32::from(*column), *flag != 0)?;
            Ok(Answer::Done)
        }
        Command::Fill { column, byte } => {
            block.fill(*byte);
            fill(roster, tray, u32::from(*column), block, work)?;
            Ok(Answer::Done)
        }
    }
}
