// Slots: the work space of a call, cut into blocks. There is one for each row, and behind them one for each line.
ghost use Rattle.std.specs.Prelude.{◌+◌, ◌*◌, ◌≤◌, length};
ghost use Rattle.shelf.specs.Slots.{SlotAdded, IsSlot};

// Adds a block to a slot of its size.
pub(crate) fn add(work: &mut [u8], slot: usize, block: &[u8])
    requires { (slot + 1) * length block.now ≤ length work.old }
    ensures { SlotAdded (length block.now) work.old slot block.now work.new }
{
    let at = slot * block.len();
    // by index on one side: nothing is known of what is written through a `zip` of `iter_mut`
    for (i, byte) in block.iter().enumerate() {
        work[at + i] ^= byte;
    }
}

// Copies a slot into a block of its size.
pub(crate) fn copy_slot(work: &[u8], slot: usize, block: &mut [u8])
    requires { (slot + 1) * length block.old ≤ length work.now }
    ensures { IsSlot (length block.old) work.now slot block.new }
{
    let at = slot * block.len();
    let end = at + block.len();
    block.copy_from_slice(&work[at..end]);
}
