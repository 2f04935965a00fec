// The kinds that are not turned.
ghost use Rattle.kinds.specs.Kinds.{plain_meaning};
ghost use Rattle.kinds.specs.Building.{BuiltPlain};
ghost use Rattle.kinds.specs.Soundness.{plain_sound};

use card::Card;
use card::fault::{Cause, Fault, Layer};
use card::plan::Plan;
use column::columns::ColumnCard;
use column::families::{Bbc, Klw};
use column::leaders::Leaders;
use halving::cards::HalvingCard;
use halving::families::{Baseline, Benes};
use halving::outer::OuterColumns;

// A card by the numbers that records and C have for it: its kind, and how many lines it has.
#[derive(Clone, Copy, PartialEq, Eq, Debug)]
pub struct CardName {
    pub kind: u8,
    pub lines: u8,
}

// A card of a kind that is not turned.
#[derive(Drop)]
pub enum Plain {
    Klw(ColumnCard<Klw>),
    Bbc(ColumnCard<Bbc>),
    Benes(HalvingCard<Benes>),
    Baseline(HalvingCard<Baseline>),
}

// Each call is that of the card within, by a match: a method that gives a `&dyn Card` for all six would hand out a dyn value,
// which the gate refuses.
impl Card for Plain {
    ghost meaning = { plain_meaning };

    ghost sound = { λ c. plain_sound c };

    fn lines(&self) -> u8 {
        match self {
            Plain::Klw(card) => card.lines(),
            Plain::Bbc(card) => card.lines(),
            Plain::Benes(card) => card.lines(),
            Plain::Baseline(card) => card.lines(),
        }
    }

    fn cells(&self) -> u8 {
        match self {
            Plain::Klw(card) => card.cells(),
            Plain::Bbc(card) => card.cells(),
            Plain::Benes(card) => card.cells(),
            Plain::Baseline(card) => card.cells(),
        }
    }

    fn columns(&self) -> u8 {
        match self {
            Plain::Klw(card) => card.columns(),
            Plain::Bbc(card) => card.columns(),
            Plain::Benes(card) => card.columns(),
            Plain::Baseline(card) => card.columns(),
        }
    }

    fn positions(&self, cell: u8) -> Result<u8, Fault> {
        match self {
            Plain::Klw(card) => card.positions(cell),
            Plain::Bbc(card) => card.positions(cell),
            Plain::Benes(card) => card.positions(cell),
            Plain::Baseline(card) => card.positions(cell),
        }
    }

    fn place(&self, setting: &[u8], input: u8, passed: u8) -> Result<u8, Fault> {
        match self {
            Plain::Klw(card) => card.place(setting, input, passed),
            Plain::Bbc(card) => card.place(setting, input, passed),
            Plain::Benes(card) => card.place(setting, input, passed),
            Plain::Baseline(card) => card.place(setting, input, passed),
        }
    }

    fn settle(&self, plan: &Plan, holds: &[u8], setting: &mut [u8]) -> Result<(), Fault> {
        match self {
            Plain::Klw(card) => card.settle(plan, holds, setting),
            Plain::Bbc(card) => card.settle(plan, holds, setting),
            Plain::Benes(card) => card.settle(plan, holds, setting),
            Plain::Baseline(card) => card.settle(plan, holds, setting),
        }
    }
}

impl CardName {
    // The card of this kind with so many lines, if the kind is not a turned one.
    pub fn build_plain(self) -> Result<Plain, Fault>
        ensures { BuiltPlain self.kind self.lines result }
    {
        let lines = self.lines;
        match self.kind {
            Klw::KIND => Ok(Plain::Klw(ColumnCard::new(Klw, lines)?)),
            Bbc::KIND => Ok(Plain::Bbc(ColumnCard::new(Bbc, lines)?)),
            Benes::KIND => Ok(Plain::Benes(HalvingCard::new(Benes, lines)?)),
            Baseline::KIND => Ok(Plain::Baseline(HalvingCard::new(Baseline, lines)?)),
            _ => Err(Fault {
                cause: Cause::UnknownCard,
                layer: Layer::Card,
                place: lines,
            }),
        }
    }
}
