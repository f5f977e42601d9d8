// The reader: splits a command's letter off a script, then its operands, and goes on with the rest.
ghost use Rattle.std.specs.Prelude.{◌≡◌};
ghost use Rattle.script.specs.Letters.{is_letter};
ghost use Rattle.script.specs.Reading.{lettered, letter_of, reading, read_of, reading_first, first_of};

use crate::command::{Command, Place, Plan};
use crate::source::Source;
use tray::fault::{Fault, Refusal};

// The letter that a script goes on with, and what stands behind it.
pub fn split_letter(script: &[u8]) -> Option<(char, &[u8])>
    ensures { letter_of result ≡ lettered script.now }
{
    let (letter, rest) = script.split_first()?;
    Some((char::from(*letter), rest))
}

// Whether a letter names a command.
pub fn is_letter(letter: char) -> bool
    ensures { result ≡ is_letter letter }
{
    matches!(
        letter,
        'L' | 'X' | 'R' | 'S' | 'G' | 'P' | 'Q' | 'D' | 'U' | 'F'
    )
}

// A command with its operands, where blocks have `size` bytes, and the script behind it.
pub fn read(letter: char, operands: &[u8], size: u32) -> Result<(Command<'_>, &[u8]), Fault>
    ensures { read_of result ≡ reading letter operands.now size }
{
    match (letter, operands) {
        ('L', [width, high, low, rest @ ..]) => {
            Ok((Command::Layout(Plan::new(width, high, low)), rest))
        }
        ('X', [column, rest @ ..]) => Ok((Command::Pull { column }, rest)),
        ('R', [column, rest @ ..]) => Ok((Command::Rebuild { column }, rest)),
        ('S', rest) => Ok((Command::Sweep, rest)),
        ('G', [column, high, low, rest @ ..]) => {
            Ok((Command::Get(Place::new(column, high, low)), rest))
        }
        ('P', [column, high, low, rest @ ..]) if rest.len() >= size as usize => {
            let place = Place::new(column, high, low);
            let (block, rest) = rest.split_at(size as usize);
            Ok((Command::Put(place, Source::Script(block)), rest))
        }
        ('Q', [column, high, low, entry, rest @ ..]) => {
            let place = Place::new(column, high, low);
            Ok((Command::Put(place, Source::Sheet(entry)), rest))
        }
        ('D', [drilled, column, high, low, rest @ ..]) => {
            let place = Place::new(column, high, low);
            Ok((Command::Drill { drilled, place }, rest))
        }
        ('U', [column, flag, rest @ ..]) => Ok((Command::Switch { column, flag }, rest)),
        ('F', [column, byte, rest @ ..]) => Ok((Command::Fill { column, byte }, rest)),
        (letter, _) if is_letter(letter) => Err(Fault::script(Refusal::ScriptEnds)),
        _ => Err(Fault::script(Refusal::UnknownCommand)),
    }
}

// The plan of the shelf, which the first command gives, and the script behind it. Whether that command may come first is
// looked at before its operands.
pub fn read_first(letter: char, operands: &[u8]) -> Result<(Plan<'_>, &[u8]), Fault>
    ensures { first_of result ≡ reading_first letter operands.now }
{
    match (letter, operands) {
        ('L', [width, high, low, rest @ ..]) => Ok((Plan::new(width, high, low), rest)),
        ('L', _) => Err(Fault::script(Refusal::ScriptEnds)),
        (letter, _) if is_letter(letter) => Err(Fault::script(Refusal::OutOfOrder)),
        _ => Err(Fault::script(Refusal::UnknownCommand)),
    }
}
