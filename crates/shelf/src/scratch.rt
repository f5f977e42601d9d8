// Scratch space of a call: room for one block, on the stack. What it holds before and after a loan means nothing.
ghost use Rattle.std.specs.Prelude.{◌≡◌, ◌≤◌, length};

use crate::roster::MOST_SIZE;

#[derive(Drop)]
pub(crate) struct Scratch {
    bytes: [u8; MOST_SIZE as usize],
}

impl Scratch {
    // Room for the largest block.
    pub(crate) fn new() -> Scratch
        ensures { length result.bytes ≡ MOST_SIZE }
    {
        Scratch {
            bytes: [0; MOST_SIZE as usize],
        }
    }

    // Lends a block of `size` bytes.
    pub(crate) fn block(&mut self, size: u32) -> &mut [u8]
        requires { size ≤ MOST_SIZE }
        ensures { length result.now ≡ size }
    {
        &mut self.bytes[0..size as usize]
    }
}
