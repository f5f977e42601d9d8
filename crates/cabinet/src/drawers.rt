// A drawer: one column of a cabinet.
ghost use Rattle.std.specs.Prelude.{◌≡◌, ◌+◌, ◌%◌, ◌^◌, ◌≤◌, length, take, drop, IfOk, vec_len};
ghost use Rattle.std.proofs.Math.Seq.{paste};

use std::alloc::{AllocError, Global};

// The column's blocks, row after row, and how often it was read, modulo 2^32.
#[derive(Drop)]
pub struct Drawer {
    bytes: Vec<u8>,
    reads: u32,
}

impl Drawer {
    ghost use Rattle.cabinet.specs.Drawers.{IsFresh};

    // A drawer of `len` zero bytes that was never read, or an error where there is no memory.
    pub(crate) fn new(heap: Global, len: usize) -> Result<Drawer, AllocError>
        ensures { IfOk result (IsFresh len) }
    {
        Ok(Drawer {
            bytes: vec![in heap; 0u8; len]?,
            reads: 0,
        })
    }

    pub(crate) fn tally(&self) -> u32
        ensures { result ≡ self.now.reads }
    {
        self.reads
    }

    // Fills a buffer with the bytes from `at` on, and counts the read.
    pub(crate) fn load(&mut self, at: usize, buffer: &mut [u8])
        requires { at + length buffer.old ≤ vec_len self.old.bytes }
        ensures buffer { buffer.new ≡ take (length buffer.old) (drop at self.old.bytes.items) }
        ensures bytes { self.new.bytes.items ≡ self.old.bytes.items }
        ensures reads { self.new.reads ≡ (self.old.reads + 1) % 2 ^ 32 }
    {
        let end = at + buffer.len();
        buffer.copy_from_slice(&self.bytes[at..end]);
        self.reads = self.reads.wrapping_add(1);
    }

    // Puts a block into the drawer from `at` on.
    pub(crate) fn store(&mut self, at: usize, block: &[u8])
        requires { at + length block.now ≤ vec_len self.old.bytes }
        ensures bytes { self.new.bytes.items ≡ paste self.old.bytes.items at block.now (length block.now) }
        ensures reads { self.new.reads ≡ self.old.reads }
    {
        let end = at + block.len();
        self.bytes[at..end].copy_from_slice(block);
    }
}
