// Faults: what a refused call tells. A refused call changes nothing, so its fault is all that it
// leaves. A fault comes up through the layers whole: no layer puts another in its place.
ghost use Rattle.std.specs.Prelude.{◌≡◌};
ghost use Rattle.tray.specs.Refusals.{number_of, tray_fault, shelf_fault, script_fault, silent_fault, fault_at};

// Why a call is refused. The first nine are about what was sent, the others about how things stand.
// Each has a number; docs/REFUSALS.md says what to do about it.
#[derive(Clone, Copy, PartialEq, Eq, Debug)]
pub enum Refusal {
    ColumnTooHigh = 1,
    RowTooHigh = 2,
    WrongBuffer = 3,
    ShortWork = 4,
    OutsideLimits = 5,
    UnknownCommand = 6,
    ScriptEnds = 7,
    NoSuchEntry = 8,
    ShortLine = 9,
    ShapeDiffers = 11,
    AlreadyOut = 12,
    NotOut = 13,
    TwoOut = 14,
    Silent = 15,
    ColumnOut = 16,
    OutOfOrder = 17,
}

impl Refusal {
    // The number by which scripts and documents know a refusal.
    pub fn number(self) -> u8
        ensures { result ≡ number_of self }
    {
        self as u8
    }
}

// The layer that refused: the script that sent the call, the shelf, or the tray below it.
#[derive(Clone, Copy, PartialEq, Eq, Debug)]
pub enum Layer {
    Script,
    Shelf,
    Tray,
}

// A refusal with the layer that told it, and the column and row that the call named, where it
// named any.
#[derive(Clone, Copy, PartialEq, Eq, Debug)]
pub struct Fault {
    pub refusal: Refusal,
    pub layer: Layer,
    pub column: Option<u32>,
    pub row: Option<u32>,
}

impl Fault {
    // A fault that a layer tells of its own.
    fn told_by(layer: Layer, refusal: Refusal, column: Option<u32>, row: Option<u32>) -> Fault
        ensures { result ≡ record { refusal = refusal; layer = layer; column = column; row = row } }
    {
        Fault {
            refusal,
            layer,
            column,
            row,
        }
    }

    // A fault of a tray's own.
    pub fn tray(refusal: Refusal, column: Option<u32>, row: Option<u32>) -> Fault
        ensures { result ≡ tray_fault refusal column row }
    {
        Fault::told_by(Layer::Tray, refusal, column, row)
    }

    // A fault of a shelf's own.
    pub fn shelf(refusal: Refusal, column: Option<u32>, row: Option<u32>) -> Fault
        ensures { result ≡ shelf_fault refusal column row }
    {
        Fault::told_by(Layer::Shelf, refusal, column, row)
    }

    // A fault of a script's own: it has neither column nor row.
    pub fn script(refusal: Refusal) -> Fault
        ensures { result ≡ script_fault refusal }
    {
        Fault::told_by(Layer::Script, refusal, None, None)
    }

    // A column does not answer: always the tray's fault, told with that column alone.
    pub fn silent(column: u32) -> Fault
        ensures { result ≡ silent_fault column }
    {
        Fault::tray(Refusal::Silent, Some(column), None)
    }

    // The same fault, told of another column. A tray made of trays tells by it which of its own
    // columns a fault of a part is about.
    pub fn at(self, column: u32) -> Fault
        ensures { result ≡ fault_at self column }
    {
        Fault {
            column: Some(column),
            ..self
        }
    }
}
