// Which columns are read to find what is missing.
ghost use Rattle.std.specs.Prelude.{◌≡◌};
ghost use Rattle.shelf.specs.Missing.{is_out};
ghost use Rattle.shelf.specs.Reading.{data_out, parity_read};

use crate::roster::missing::Missing;
use code::widths::Width;

impl Missing {
    // Whether one of k data columns is out.
    pub(crate) fn has_data(self, k: Width) -> bool
        ensures { result ≡ data_out k.number (is_out self) }
    {
        match self {
            Missing::Nothing => false,
            Missing::One(a) => a < k.number,
            Missing::Two(a, b) => a < k.number || b < k.number,
        }
    }

    // Whether a parity column is read: it is in service, and needed since a data column is out.
    pub(crate) fn reads_parity(self, k: Width, column: u32) -> bool
        ensures { result ≡ parity_read k.number (is_out self) column }
    {
        self.has_data(k) && !self.is_out(column)
    }
}
