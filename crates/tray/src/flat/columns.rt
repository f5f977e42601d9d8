// The records in the table of a flat tray.
ghost use Rattle.std.specs.Prelude.{◌≡◌};
ghost use Rattle.tray.specs.FlatColumns.{counted, turned};

// Whether a column answers, and how often it was read, modulo 2^32.
#[derive(Clone, Copy)]
pub struct Column {
    answering: bool,
    reads: u32,
}

impl Column {
    // A column that answers and was never read.
    pub(super) const NEW: Column = Column {
        answering: true,
        reads: 0,
    };

    pub(super) fn answers(&self) -> bool
        ensures { result ≡ self.now.answering }
    {
        self.answering
    }

    pub(super) fn tally(&self) -> u32
        ensures { result ≡ self.now.reads }
    {
        self.reads
    }

    // One more read.
    pub(super) fn count(&mut self)
        ensures { self.new ≡ counted self.old }
    {
        self.reads = self.reads.wrapping_add(1);
    }

    // The flag set.
    pub(super) fn switch(&mut self, on: bool)
        ensures { self.new ≡ turned self.old on }
    {
        self.answering = on;
    }
}
