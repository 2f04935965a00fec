// The orders that settle anew.
ghost use Rattle.cabinet.specs.Orders.{Order};
ghost use Rattle.cabinet.specs.States.{Ordered};

use super::Cabinet;
use card::fault::{Cause, Fault, Layer};
use card::{Card, NONE};

impl<C: Card> Cabinet<C> {
    // Puts these pairs in place of all.
    pub fn plan(&mut self, pairs: &[u8]) -> Result<u8, Fault>
        ensures { Ordered C.Card.meaning self.old (Order.plan pairs.now) result self.new }
    {
        if pairs.len() != self.card.lines() as usize {
            return Err(Fault {
                cause: Cause::WrongLength,
                layer: Layer::Cabinet,
                place: 0,
            });
        }
        let mut next = self.state;
        next.plan.fill(pairs)?;
        self.adopt(next)
    }

    // Puts an idle input through to an idle output.
    pub fn patch(&mut self, input: u8, output: u8) -> Result<u8, Fault>
        ensures { Ordered C.Card.meaning self.old (Order.patch input output) result self.new }
    {
        let mut next = self.state;
        next.plan.patch(input, output)?;
        self.adopt(next).map_err(|fault| Fault {
            place: input,
            ..fault
        })
    }

    // Makes a busy input idle.
    pub fn drop(&mut self, input: u8) -> Result<u8, Fault>
        ensures { Ordered C.Card.meaning self.old (Order.drop input) result self.new }
    {
        let mut next = self.state;
        next.plan.drop(input)?;
        self.adopt(next)
    }

    // Fixes a cell at a position.
    pub fn hold(&mut self, cell: u8, position: u8) -> Result<u8, Fault>
        ensures { Ordered C.Card.meaning self.old (Order.hold cell position) result self.new }
    {
        let Ok(positions) = self.card.positions(cell) else {
            return Err(Fault {
                cause: Cause::NoCell,
                layer: Layer::Cabinet,
                place: cell,
            });
        };
        if position >= positions {
            return Err(Fault {
                cause: Cause::NoPosition,
                layer: Layer::Cabinet,
                place: cell,
            });
        }
        let mut next = self.state;
        if next.holds[cell as usize] != NONE {
            return Err(Fault {
                cause: Cause::CellHeld,
                layer: Layer::Cabinet,
                place: cell,
            });
        }
        next.holds[cell as usize] = position;
        self.adopt(next).map_err(|fault| Fault {
            place: cell,
            ..fault
        })
    }

    // Ends the hold of a cell.
    pub fn release(&mut self, cell: u8) -> Result<u8, Fault>
        ensures { Ordered C.Card.meaning self.old (Order.release cell) result self.new }
    {
        if cell >= self.card.cells() {
            return Err(Fault {
                cause: Cause::NoCell,
                layer: Layer::Cabinet,
                place: cell,
            });
        }
        let mut next = self.state;
        if next.holds[cell as usize] == NONE {
            return Err(Fault {
                cause: Cause::CellNotHeld,
                layer: Layer::Cabinet,
                place: cell,
            });
        }
        next.holds[cell as usize] = NONE;
        self.adopt(next)
    }
}
