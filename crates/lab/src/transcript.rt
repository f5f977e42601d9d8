// The lines of a whole script.
ghost use Rattle.std.specs.Prelude.{◌≡◌, ℕ, List, length, take, IfOk};
ghost use Rattle.lab.specs.Labs.{bare};
ghost use Rattle.lab.specs.Transcripts.{Transcript};

use crate::run::LEAST_LINE;
use crate::shelf_lab::Lab;
use std::alloc::{AllocError, Global};

// The most bytes of a script that are run.
pub const MOST_SCRIPT: usize = 16384;

// The most bytes of a sheet that blocks are taken from.
pub const MOST_SHEET: usize = 4096;

// The bytes of the lab's memory.
pub const MEMORY: usize = 32768;

// The bytes of the work space. A shelf has at least five columns, and its work space the size of two of them, so this is
// enough for every shelf that the memory holds.
pub const WORK: usize = 2 * MEMORY / 5;

// The first `most` bytes, or all of them where there are fewer.
fn front(bytes: &[u8], most: usize) -> &[u8]
    ensures { result.now ≡ take most bytes.now }
{
    bytes.get(..most).unwrap_or(bytes)
}

// Runs the front of a script on a new lab, with the front of a sheet, and answers the lines of its commands. Want of
// memory is the only error.
pub fn transcript(heap: Global, script: &[u8], sheet: &[u8]) -> Result<Vec<u8>, AllocError>
    ensures { IfOk result (λ lines. (cells : List ℕ) × (length cells ≡ 32768) × Transcript 13107 (take 4096 sheet.now) (bare cells) (take 16384 script.now) lines.items) }
{
    let sheet = front(sheet, MOST_SHEET);
    let mut rest = front(script, MOST_SCRIPT);
    let mut memory = vec![in heap; 0u8; MEMORY]?;
    let mut work = vec![in heap; 0u8; WORK]?;
    let mut line = vec![in heap; 0u8; LEAST_LINE]?;
    let mut lab = Lab::new(&mut memory);
    let mut lines = Vec::new(heap);
    while !rest.is_empty() {
        // the line buffer is long enough, so the lab takes the call
        let Ok(step) = lab.run(rest, sheet, &mut work, &mut line) else {
            unreachable()
        };
        lines.extend_from_slice(&line[..step.len])?;
        rest = step.rest;
    }
    Ok(lines)
}
