// A lab: a memory, and once a script has laid it out the shelf on a flat tray over it.
ghost use Rattle.std.specs.Prelude.{◌≡◌};
ghost use Rattle.lab.specs.Labs.{standing, bare};
ghost use Rattle.lab.specs.Courses.{LawOfScripts};

use shelf::roster::Roster;
use tray::flat::Flat;
use tray::trays::Shape;

// Both are open, so that calls of one's own can be made between the commands. As long as there is no roster only the
// tray's memory counts.
#[derive(Drop)]
pub struct Lab<'a> {
    pub roster: Option<Roster>,
    pub tray: Flat<'a>,
}

impl<'a> Lab<'a> {
    // A lab over a memory, with no shelf yet. From here on the law of scripts stands of every script.
    pub fn new(memory: &'a mut [u8]) -> Lab<'a>
        ensures value { standing result ≡ bare memory.old }
        ensures law { LawOfScripts }
    {
        let tray = Flat::new(Shape::EMPTY, memory);
        Lab { roster: None, tray }
    }
}
