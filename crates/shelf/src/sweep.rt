// A sweep (a scrub, in the field's words): compares both parities of a whole shelf with its data.
ghost use Rattle.std.specs.Prelude.{◌≡◌, length};
ghost use Rattle.code.specs.Neighbours.{published};
ghost use Rattle.law.specs.Holding.{Calm};
ghost use Rattle.law.specs.Calls.{Finding};
ghost use Rattle.law.specs.Promises.{Spares};
ghost use Rattle.shelf.specs.Missing.{is_out};
ghost use Rattle.shelf.specs.Rosters.{roster_of};
ghost use Rattle.shelf.specs.Checks.{sweeping, verdict_of};
ghost use Rattle.shelf.specs.Promises.{SweepsOn};
ghost use Rattle.shelf.specs.Reading.{Heard};
ghost use Rattle.shelf.specs.Sweeping.{place_of, parity_place, Compared, SweepCarries};

use crate::bench::Bench;
use crate::blocks::fetch;
use crate::roster::Roster;
use crate::roster::missing::Missing;
use crate::scratch::Scratch;
use code::places::{Line, Row};
use code::widths::Width;
use tray::fault::Fault;
use tray::trays::Tray;

// A parity block: the sum of a row or that of a line.
#[derive(Clone, Copy)]
enum Parity {
    OfRow(Row),
    OfLine(Line),
}

impl Parity {
    // The parity block whose sum of the data lies in a slot of the work space: the rows come first, and then the lines.
    fn in_slot(k: Width, slot: u32) -> Parity
        ensures { place_of k.number result ≡ parity_place k.number slot }
    {
        let rows = k.rows();
        if slot < rows {
            Parity::OfRow(Row(slot))
        } else {
            Parity::OfLine(Line(slot - rows))
        }
    }

    // The parity column that the block lies in, and the number of its row or line there.
    fn place(self, k: Width) -> (u32, u32)
        ensures { result ≡ place_of k.number self }
    {
        match self {
            Parity::OfRow(row) => (k.number, row.0),
            Parity::OfLine(line) => (k.number + 1, line.0),
        }
    }
}

impl<'a> Bench<'a> {
    ghost use Rattle.shelf.specs.Benches.{Kept, size_of};

    // The first parity place, column k by rows and then column k + 1 by lines, that does not hold what its slot does.
    fn first_misfit<T: Tray>(&mut self, tray: &mut T) -> Option<(u32, u32)>
        requires { Heard self.old.k.number (size_of self.old) (is_out Missing.Nothing) (T.Tray.meaning tray.old) }
        ensures tray { Calm (T.Tray.meaning tray.old) (T.Tray.meaning tray.new) }
        ensures kept { Kept self.old self.new }
        ensures work { self.new.work.now ≡ self.old.work.now }
        ensures found { Compared self.old.k.number (size_of self.old) (T.Tray.meaning tray.old) self.old.work.now result }
    {
        // the loops are left by the label with the place found, and a range of slots is what the outer one goes over
        let mut found = None;
        let k = self.k;
        let block = &mut *self.block;
        let work = &mut *self.work;
        let slots = 2 * k.rows();
        'places: for slot in 0..slots {
            let (column, row) = Parity::in_slot(k, slot).place(k);
            fetch(tray, column, row, block);
            let at = slot as usize * block.len();
            for (i, byte) in block.iter().enumerate() {
                if *byte != work[at + i] {
                    found = Some((column, row));
                    break 'places;
                }
            }
        }
        found
    }

    // Compares both parities with the data, on a tray whose columns all answer.
    fn compare<T: Tray>(&mut self, tray: &mut T) -> Option<(u32, u32)>
        requires { Heard self.old.k.number (size_of self.old) (is_out Missing.Nothing) (T.Tray.meaning tray.old) }
        ensures tray { Calm (T.Tray.meaning tray.old) (T.Tray.meaning tray.new) }
        ensures found { Finding self.old.k.number (published self.old.k.number) (size_of self.old) (T.Tray.meaning tray.old) result }
    {
        self.gather(tray, Missing::Nothing);
        self.first_misfit(tray)
    }
}

impl Roster {
    // Compares both parities with the data, where no column is out: answers `None` where they fit, and else the first place
    // that does not, as its parity column and its row or line: column k by rows, then column k + 1 by lines.
    pub fn sweep<T: Tray>(&self, tray: &mut T, work: &mut [u8]) -> Result<Option<(u32, u32)>, Fault>
        ensures value { verdict_of result ≡ sweeping (roster_of self.now) (T.Tray.meaning tray.old) (length work.old) }
        ensures done { SweepsOn (roster_of self.now) (T.Tray.meaning tray.old) result (T.Tray.meaning tray.new) }
        ensures work { Spares work.old result work.new }
        ensures carries { SweepCarries (roster_of self.now) (T.Tray.meaning tray.old) (T.Tray.sized tray.old) result (T.Tray.meaning tray.new) (T.Tray.sized tray.new) }
    {
        self.check_sweep(tray, work.len())?;
        let mut scratch = Scratch::new();
        let mut bench = Bench {
            k: self.width(),
            block: scratch.block(self.size()),
            work,
        };
        Ok(bench.compare(tray))
    }
}
