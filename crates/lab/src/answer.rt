// What an accepted command answers.

// The block is the one that was got. A sweep finds the first parity place that does not fit, or none.
#[derive(Clone, Copy, PartialEq, Eq, Debug)]
pub enum Answer<'b> {
    Done,
    Block(&'b [u8]),
    Count(u32),
    Found(Option<(u32, u32)>),
}
