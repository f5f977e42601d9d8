// The checks of the calls that take a tray, each in its order. A call that passes them is never refused by its tray.
ghost use Rattle.std.specs.Prelude.{◌≡◌, ◌+◌, ◌<◌, ◌≤◌, true, ◌||◌, if◌then◌else◌, Ok, Err};
ghost use Rattle.code.specs.Code.{rows};
ghost use Rattle.shelf.specs.Missing.{is_out};
ghost use Rattle.shelf.specs.Rosters.{roster_of};
ghost use Rattle.shelf.specs.Checks.{is_shaped, is_roomy, silent_from, hearing, laying, reaching, rebuilding, sweeping};

use crate::roster::Roster;
use crate::roster::missing::Missing;
use tray::fault::{Fault, Refusal};
use tray::trays::{Shape, Tray};

// Whether a column is out or answers.
fn is_heard<T: Tray>(out: Missing, tray: &T, column: u32) -> bool
    requires { column < (T.Tray.meaning tray.now).columns }
    ensures { result ≡ (is_out out column || (T.Tray.meaning tray.now).answers column) }
{
    out.is_out(column) || tray.answers(column) == Ok(true)
}

// The lowest of the first columns that is neither out nor answers.
fn lowest_silent<T: Tray>(out: Missing, tray: &T, columns: u32) -> Option<u32>
    requires { columns ≤ (T.Tray.meaning tray.now).columns }
    ensures { result ≡ silent_from out (T.Tray.meaning tray.now).answers 0 columns }
{
    (0..columns).find(|&column| !is_heard(out, tray, column))
}

// Goes on where a check holds, and else ends in the fault that tells why not.
pub(crate) fn pass(holds: bool, fault: Fault) -> Result<(), Fault>
    ensures { result ≡ (if holds then Ok tt else Err fault) }
{
    if holds { Ok(()) } else { Err(fault) }
}

impl Roster {
    // The shape of the shelf's tray.
    fn shape(&self) -> Shape
        ensures columns { result.columns ≡ (roster_of self.now).width + 2 }
        ensures rows { result.rows ≡ rows (roster_of self.now).width }
        ensures size { result.size ≡ (roster_of self.now).size }
    {
        Shape {
            columns: self.columns(),
            rows: self.rows(),
            size: self.size(),
        }
    }

    // Whether a tray has the shelf's shape.
    fn fits<T: Tray>(&self, tray: &T) -> bool
        ensures { result ≡ is_shaped (roster_of self.now) (T.Tray.meaning tray.now) }
    {
        tray.shape() == self.shape()
    }

    // Whether a work space has room for a block of each row and one of each line.
    fn is_roomy(&self, work: usize) -> bool
        ensures { result ≡ is_roomy (roster_of self.now) work }
    {
        2 * self.rows() as usize * self.size() as usize <= work
    }

    // Whether every column answers, but for those in `out`.
    fn check_heard<T: Tray>(&self, out: Missing, tray: &T) -> Result<(), Fault>
        requires { is_shaped (roster_of self.now) (T.Tray.meaning tray.now) ≡ true }
        ensures { result ≡ hearing out (roster_of self.now) (T.Tray.meaning tray.now) }
    {
        match lowest_silent(out, tray, self.columns()) {
            Some(column) => Err(Fault::silent(column)),
            None => Ok(()),
        }
    }

    // The checks of a layout.
    pub(crate) fn check_layout<T: Tray>(&self, tray: &T) -> Result<(), Fault>
        ensures { result ≡ laying (roster_of self.now) (T.Tray.meaning tray.now) }
    {
        let fault = |refusal| Fault::shelf(refusal, None, None);
        pass(self.fits(tray), fault(Refusal::ShapeDiffers))?;
        self.check_heard(Missing::Nothing, tray)
    }

    // The checks of a get and of a put, with a block and a work space of these lengths.
    pub(crate) fn check_place<T: Tray>(
        &self,
        tray: &T,
        column: u32,
        row: u32,
        block: usize,
        work: usize,
    ) -> Result<(), Fault>
        ensures { result ≡ reaching (roster_of self.now) (T.Tray.meaning tray.now) column row block work }
    {
        let k = self.width();
        let fault = |refusal| Fault::shelf(refusal, Some(column), Some(row));
        pass(self.fits(tray), fault(Refusal::ShapeDiffers))?;
        pass(column < k.number, fault(Refusal::ColumnTooHigh))?;
        pass(row < self.rows(), fault(Refusal::RowTooHigh))?;
        pass(block == self.size() as usize, fault(Refusal::WrongBuffer))?;
        pass(self.is_roomy(work), fault(Refusal::ShortWork))?;
        self.check_heard(self.missing(), tray)
    }

    // The checks of a rebuild. The column itself has to answer too, since it is written.
    pub(crate) fn check_rebuild<T: Tray>(
        &self,
        tray: &T,
        column: u32,
        work: usize,
    ) -> Result<(), Fault>
        ensures { result ≡ rebuilding (roster_of self.now) (T.Tray.meaning tray.now) column work }
    {
        let fault = |refusal| Fault::shelf(refusal, Some(column), None);
        pass(self.fits(tray), fault(Refusal::ShapeDiffers))?;
        pass(column < self.columns(), fault(Refusal::ColumnTooHigh))?;
        pass(self.is_roomy(work), fault(Refusal::ShortWork))?;
        pass(self.is_out(column), fault(Refusal::NotOut))?;
        self.check_heard(self.missing().without(column), tray)
    }

    // The checks of a sweep.
    pub(crate) fn check_sweep<T: Tray>(&self, tray: &T, work: usize) -> Result<(), Fault>
        ensures { result ≡ sweeping (roster_of self.now) (T.Tray.meaning tray.now) work }
    {
        let fault = |refusal| Fault::shelf(refusal, None, None);
        pass(self.fits(tray), fault(Refusal::ShapeDiffers))?;
        pass(self.is_roomy(work), fault(Refusal::ShortWork))?;
        pass(self.missing().is_empty(), fault(Refusal::ColumnOut))?;
        self.check_heard(Missing::Nothing, tray)
    }
}
