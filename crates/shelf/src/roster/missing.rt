// The columns of a shelf that are out of service: never more than two.
ghost use Rattle.std.specs.Prelude.{◌≡◌};
ghost use Rattle.shelf.specs.Missing.{is_out, is_empty, is_full, added, removed};

// A set of at most two that knows which came last, so that taking that one back leaves it as it was before.
#[derive(Clone, Copy)]
pub enum Missing {
    Nothing,
    One(u32),
    Two(u32, u32),
}

impl Missing {
    // Whether a column is out.
    pub(crate) fn is_out(self, column: u32) -> bool
        ensures { result ≡ is_out self column }
    {
        match self {
            Missing::Nothing => false,
            Missing::One(a) => a == column,
            Missing::Two(a, b) => a == column || b == column,
        }
    }

    // Whether no column is out.
    pub(crate) fn is_empty(self) -> bool
        ensures { result ≡ is_empty self }
    {
        matches!(self, Missing::Nothing)
    }

    // Whether no further column may go out.
    pub(crate) fn is_full(self) -> bool
        ensures { result ≡ is_full self }
    {
        matches!(self, Missing::Two(..))
    }

    // One column more is out, where there is room.
    pub(crate) fn with(self, column: u32) -> Missing
        ensures { result ≡ added self column }
    {
        match self {
            Missing::Nothing => Missing::One(column),
            Missing::One(a) => Missing::Two(a, column),
            Missing::Two(..) => self,
        }
    }

    // One column fewer. The one that came last is looked for first, so that this undoes `with`.
    pub(crate) fn without(self, column: u32) -> Missing
        ensures { result ≡ removed self column }
    {
        match self {
            Missing::One(a) if a == column => Missing::Nothing,
            Missing::Two(a, b) if b == column => Missing::One(a),
            Missing::Two(a, b) if a == column => Missing::One(b),
            _ => self,
        }
    }
}
