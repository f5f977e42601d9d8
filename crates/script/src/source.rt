// Where the block to put comes from.
ghost use Rattle.std.specs.Prelude.{◌≡◌};
ghost use Rattle.script.specs.Commands.{source_of};
ghost use Rattle.script.specs.Blocks.{block_in, lent_of};

use tray::fault::{Fault, Refusal};

// The bytes themselves, or the number of an entry of the sheet. The sheet is a list of blocks, one behind the other.
#[derive(Clone, Copy, PartialEq, Eq, Debug)]
pub enum Source<'a> {
    Script(&'a [u8]),
    Sheet(&'a u8),
}

impl<'a> Source<'a> {
    // The block's bytes, as a part of whichever of script and sheet holds them.
    pub fn block(self, sheet: &'a [u8], size: u32) -> Result<&'a [u8], Fault>
        ensures { lent_of result ≡ block_in (source_of self.entry) sheet.now size }
    {
        match self {
            Source::Script(block) => Ok(block),
            Source::Sheet(entry) => {
                let size = size as usize;
                let start = usize::from(*entry) * size;
                sheet
                    .get(start..start + size)
                    .ok_or(Fault::script(Refusal::NoSuchEntry))
            }
        }
    }
}
