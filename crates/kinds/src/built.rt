// Cards of every kind, plain or turned.
ghost use Rattle.kinds.specs.Kinds.{built_meaning};
ghost use Rattle.kinds.specs.Building.{Built as IsBuilt};
ghost use Rattle.kinds.specs.Soundness.{built_sound};

use super::plain::{CardName, Plain};
use card::Card;
use card::fault::Fault;
use card::plan::Plan;
use turned::Turned;

// How much higher the kind number of a turned card is.
const TURNED: u8 = 16;

// A card of any kind.
#[derive(Drop)]
pub enum Built {
    Plain(Plain),
    Turned(Turned<Plain>),
}

// Each call is that of the card within, by a match, as for a plain card.
impl Card for Built {
    ghost meaning = { built_meaning };

    ghost sound = { λ c. built_sound c };

    fn lines(&self) -> u8 {
        match self {
            Built::Plain(card) => card.lines(),
            Built::Turned(card) => card.lines(),
        }
    }

    fn cells(&self) -> u8 {
        match self {
            Built::Plain(card) => card.cells(),
            Built::Turned(card) => card.cells(),
        }
    }

    fn columns(&self) -> u8 {
        match self {
            Built::Plain(card) => card.columns(),
            Built::Turned(card) => card.columns(),
        }
    }

    fn positions(&self, cell: u8) -> Result<u8, Fault> {
        match self {
            Built::Plain(card) => card.positions(cell),
            Built::Turned(card) => card.positions(cell),
        }
    }

    fn place(&self, setting: &[u8], input: u8, passed: u8) -> Result<u8, Fault> {
        match self {
            Built::Plain(card) => card.place(setting, input, passed),
            Built::Turned(card) => card.place(setting, input, passed),
        }
    }

    fn settle(&self, plan: &Plan, holds: &[u8], setting: &mut [u8]) -> Result<(), Fault> {
        match self {
            Built::Plain(card) => card.settle(plan, holds, setting),
            Built::Turned(card) => card.settle(plan, holds, setting),
        }
    }
}

impl CardName {
    // The card of this kind with so many lines.
    pub fn build(self) -> Result<Built, Fault>
        ensures { IsBuilt self.kind self.lines result }
    {
        if self.kind > TURNED {
            let beneath = CardName {
                kind: self.kind - TURNED,
                lines: self.lines,
            };
            Ok(Built::Turned(Turned::new(beneath.build_plain()?)))
        } else {
            Ok(Built::Plain(self.build_plain()?))
        }
    }
}
