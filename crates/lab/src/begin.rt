// The first command of a script, which lays the shelf out.
ghost use Rattle.std.specs.Prelude.{◌≡◌, None};
ghost use Rattle.lab.specs.Labs.{standing};
ghost use Rattle.lab.specs.Running.{LaysOut, Begun, done, behind};
ghost use Rattle.script.specs.Reading.{reading_first};

use crate::shelf_lab::Lab;
use code::widths::Width;
use script::reader::read_first;
use shelf::roster::Roster;
use tray::fault::Fault;
use tray::trays::Shape;

impl Lab<'_> {
    // Lays a shelf out, on a tray that is made anew over the memory.
    fn lay_out(&mut self, width: u32, size: u32) -> Result<(), Fault>
        requires { self.old.roster ≡ None }
        ensures { LaysOut self.old.tray.cells.now width size result (standing self.new) }
    {
        if let Some(k) = Width::new(width) {
            self.tray.renew(Shape::new(k.number + 2, k.rows(), size));
        }
        self.roster = Some(Roster::layout(&mut self.tray, width, size)?);
        Ok(())
    }

    // Lays the shelf out that the first command asks for, and answers the script behind it.
    pub(crate) fn begin<'s>(&mut self, letter: char, operands: &'s [u8]) -> Result<&'s [u8], Fault>
        requires { self.old.roster ≡ None }
        ensures { Begun self.old.tray.cells.now (reading_first letter operands.now) (done result) (behind result) (standing self.new) }
    {
        let (plan, rest) = read_first(letter, operands)?;
        self.lay_out(u32::from(*plan.width), plan.size.value())?;
        Ok(rest)
    }
}
