// Why a call is refused.
ghost use Rattle.std.specs.Prelude.{◌≡◌, Some};
ghost use Rattle.card.specs.Faults.{cause_number, layer_number};
ghost use Rattle.card.specs.Words.{cause_words};

use std::fmt;

// What was wrong. Each cause has a number of its own, from 1 to 18.
#[derive(Clone, Copy, PartialEq, Eq, Debug)]
pub enum Cause {
    UnknownCard = 1,
    NoInput = 2,
    NoOutput = 3,
    InputBusy = 4,
    OutputBusy = 5,
    InputIdle = 6,
    NoCell = 7,
    NoPosition = 8,
    CellHeld = 9,
    CellNotHeld = 10,
    NoSetting = 11,
    BadMark = 12,
    CutShort = 13,
    WrongLength = 14,
    SheetPosition = 15,
    SheetHold = 16,
    SheetPair = 17,
    PastColumns = 18,
}

// The cause in words.
pub fn cause_words(cause: Cause) -> &'static str
    ensures { result.now ≡ cause_words cause }
{
    match cause {
        Cause::UnknownCard => "kind or line count unknown",
        Cause::NoInput => "no such input",
        Cause::NoOutput => "no such output",
        Cause::InputBusy => "input busy",
        Cause::OutputBusy => "output busy",
        Cause::InputIdle => "input idle",
        Cause::NoCell => "no such cell",
        Cause::NoPosition => "no such position",
        Cause::CellHeld => "cell held",
        Cause::CellNotHeld => "cell not held",
        Cause::NoSetting => "no setting fits",
        Cause::BadMark => "mark unknown or out of place",
        Cause::CutShort => "record cut short",
        Cause::WrongLength => "wrong length",
        Cause::SheetPosition => "position out of range",
        Cause::SheetHold => "held cell differs",
        Cause::SheetPair => "pair not carried",
        Cause::PastColumns => "more than S columns",
    }
}

impl fmt::Display for Cause {
    ghost output = { λ c. Some (cause_words c) };

    fn fmt<W: fmt::Write>(&self, f: &mut fmt::Formatter<W>) -> fmt::Result {
        f.write_str(cause_words(*self))
    }
}

// Which part refused: the reader and writer of records, the orders with plans and the check, or the card.
#[derive(Clone, Copy, PartialEq, Eq, Debug)]
pub enum Layer {
    Record = 1,
    Cabinet = 2,
    Card = 3,
}

// A refusal. The place is a line, a cell, or a count, as the cause has it.
#[derive(Clone, Copy, PartialEq, Eq, Debug)]
pub struct Fault {
    pub cause: Cause,
    pub layer: Layer,
    pub place: u8,
}

impl Fault {
    // The number of the cause.
    pub fn number(&self) -> u8
        ensures { result ≡ cause_number self.now.cause }
    {
        self.cause as u8
    }

    // The number of the layer.
    pub fn layer_number(&self) -> u8
        ensures { result ≡ layer_number self.now.layer }
    {
        self.layer as u8
    }
}
