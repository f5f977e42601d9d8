// One command of a script, and the line that tells of it.
ghost use Rattle.std.specs.Prelude.{◌≡◌, ◌≤◌, length, IfOk, MatchResult};
ghost use Rattle.shelf.specs.Checks.{verdict_of};
ghost use Rattle.lab.specs.Labs.{standing};
ghost use Rattle.lab.specs.Lines.{shown_block};
ghost use Rattle.lab.specs.Running.{line_checked, Turns, Runs};

use crate::answer::Answer;
use crate::line::write_line;
use crate::obey::obey;
use crate::shelf_lab::Lab;
use script::reader::{read, split_letter};
use shelf::roster::MOST_SIZE;
use tray::fault::{Fault, Refusal};

// The least bytes of a line buffer: the longest line has a little less.
pub const LEAST_LINE: usize = 1040;

// Where a script stands after a command: its line has `len` bytes, and `rest` is left to run. Nothing is left where the
// script has ended.
#[derive(Clone, Copy, PartialEq, Eq, Debug)]
pub struct Step<'s> {
    pub len: usize,
    pub rest: &'s [u8],
}

impl Lab<'_> {
    // Obeys the command that stands behind a letter: the first one lays the shelf out. The script goes on behind it, and
    // ends where it cannot be read, and where the layout is refused.
    fn turn<'b, 's>(
        &mut self,
        letter: char,
        operands: &'s [u8],
        sheet: &[u8],
        block: &'b mut [u8; MOST_SIZE as usize],
        work: &mut [u8],
    ) -> (Result<Answer<'b>, Fault>, &'s [u8])
        ensures done { Turns sheet.now (standing self.old) letter operands.now work.old result.0 result.1.now work.new (standing self.new) }
        ensures short { IfOk result.0 (λ answer. length (shown_block answer) ≤ MOST_SIZE) }
    {
        let Some(roster) = &mut self.roster else {
            return match self.begin(letter, operands) {
                Ok(rest) => (Ok(Answer::Done), rest),
                Err(fault) => (Err(fault), &[]),
            };
        };
        let size = roster.size();
        match read(letter, operands, size) {
            Ok((command, rest)) => {
                let block = &mut block[..size as usize];
                let told = obey(roster, &mut self.tray, command, sheet, block, work);
                (told, rest)
            }
            Err(fault) => (Err(fault), &[]),
        }
    }

    // Runs the command that a script goes on with, and fills its line. Only a short line buffer refuses the call itself:
    // any other refusal is told in the line. There is no line where the script has nothing left.
    pub fn run<'s>(
        &mut self,
        script: &'s [u8],
        sheet: &[u8],
        work: &mut [u8],
        line: &mut [u8],
    ) -> Result<Step<'s>, Fault>
        ensures value { verdict_of result ≡ line_checked (length line.old) }
        ensures done { MatchResult result (λ step. Runs sheet.now (standing self.old) script.now work.old line.old step.len step.rest.now work.new line.new (standing self.new)) (λ _. (standing self.new ≡ standing self.old) × (line.new ≡ line.old) × (work.new ≡ work.old)) }
    {
        if line.len() < LEAST_LINE {
            return Err(Fault::script(Refusal::ShortLine));
        }
        let Some((letter, operands)) = split_letter(script) else {
            return Ok(Step {
                len: 0,
                rest: script,
            });
        };
        let mut block = [0; MOST_SIZE as usize];
        let (told, rest) = self.turn(letter, operands, sheet, &mut block, work);
        let len = write_line(line, letter, told);
        Ok(Step { len, rest })
    }
}
