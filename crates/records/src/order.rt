// The orders that a cabinet takes, and the marks that their records begin with.
ghost use Rattle.std.specs.Prelude.{◌≡◌, length, MatchBool};
ghost use Rattle.records.specs.Format.{table, Stands, Lettered, image, mark_of, body_of};

use card::fault::{Cause, Fault, Layer};

// An order. A plan and voice frames are a part of the bytes that they were read from.
#[derive(Clone, Copy)]
pub enum Order<'a> {
    Commission { kind: u8, lines: u8 },
    Plan(&'a [u8]),
    Patch { input: u8, output: u8 },
    Drop { input: u8 },
    Hold { cell: u8, position: u8 },
    Release { cell: u8 },
    RingOut,
    Voice(&'a [u8]),
}

// The marks, by their letters.
#[derive(Clone, Copy)]
pub enum Mark {
    Cm,
    Pl,
    Pt,
    Dr,
    Ho,
    Re,
    Ro,
    Vf,
}

// A mark that is unknown or out of place.
pub(crate) const BAD_MARK: Fault = Fault {
    cause: Cause::BadMark,
    layer: Layer::Record,
    place: 0,
};

// A line count that no cabinet has, a body that does not fit it, or a buffer too short.
pub(crate) const WRONG_LENGTH: Fault = Fault {
    cause: Cause::WrongLength,
    layer: Layer::Record,
    place: 0,
};

// The mark with these letters.
impl TryFrom<[u8; 2]> for Mark {
    type Error = Fault;

    ghost try_from_gives = { Lettered };

    fn try_from(letters: [u8; 2]) -> Result<Mark, Fault> {
        match &letters {
            b"CM" => Ok(Mark::Cm),
            b"PL" => Ok(Mark::Pl),
            b"PT" => Ok(Mark::Pt),
            b"DR" => Ok(Mark::Dr),
            b"HO" => Ok(Mark::Ho),
            b"RE" => Ok(Mark::Re),
            b"RO" => Ok(Mark::Ro),
            b"VF" => Ok(Mark::Vf),
            _ => Err(BAD_MARK),
        }
    }
}

// The letters of the mark.
impl From<Mark> for [u8; 2] {
    ghost from_gives = { λ m r. r ≡ (table m).letters };

    fn from(mark: Mark) -> [u8; 2] {
        match mark {
            Mark::Cm => *b"CM",
            Mark::Pl => *b"PL",
            Mark::Pt => *b"PT",
            Mark::Dr => *b"DR",
            Mark::Ho => *b"HO",
            Mark::Re => *b"RE",
            Mark::Ro => *b"RO",
            Mark::Vf => *b"VF",
        }
    }
}

impl Mark {
    // How many bytes follow the mark.
    pub(crate) fn body_length(self, lines: u8) -> usize
        ensures { result ≡ (table self).size lines }
    {
        match self {
            Mark::Cm | Mark::Pt | Mark::Ho => 2,
            Mark::Dr | Mark::Re => 1,
            Mark::Ro => 0,
            Mark::Pl => lines as usize,
            Mark::Vf => 11 * lines as usize,
        }
    }

    // Whether the mark may stand at this line count.
    pub(crate) fn stands(self, lines: u8) -> bool
        ensures { MatchBool result (Stands lines self) (Stands lines self → ⊥) }
    {
        match self {
            Mark::Cm => lines == 0,
            _ => lines >= 2,
        }
    }
}

impl Order<'_> {
    // The mark of the order's record.
    pub(crate) fn mark(&self) -> Mark
        ensures { result ≡ mark_of (image self.now) }
    {
        match self {
            Order::Commission { .. } => Mark::Cm,
            Order::Plan(_) => Mark::Pl,
            Order::Patch { .. } => Mark::Pt,
            Order::Drop { .. } => Mark::Dr,
            Order::Hold { .. } => Mark::Ho,
            Order::Release { .. } => Mark::Re,
            Order::RingOut => Mark::Ro,
            Order::Voice(_) => Mark::Vf,
        }
    }

    // How many bytes the order's body has.
    pub(crate) fn body_length(&self) -> usize
        ensures { result ≡ length (body_of (image self.now)) }
    {
        match self {
            Order::Commission { .. } | Order::Patch { .. } | Order::Hold { .. } => 2,
            Order::Drop { .. } | Order::Release { .. } => 1,
            Order::RingOut => 0,
            Order::Plan(body) | Order::Voice(body) => body.len(),
        }
    }
}
