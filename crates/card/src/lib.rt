// Cards of switch cells: the faults of all calls, plans, and the calls that every card answers.
#![tactic(auto)]

ghost use Rattle.std.specs.Prelude.{◌≡◌};
ghost use Rattle.card.specs.Meaning.{Meaning, Sound};
ghost use Rattle.card.specs.Placing as placing;
ghost use Rattle.card.specs.Settling.{Counted, Checked, Settled};
ghost use Rattle.card.specs.PlanPairs.{pairs_of};

pub mod fault;
pub mod plan;

use fault::{Cause, Fault, Layer};
use plan::Plan;

// Stands for an idle line, and for a cell that is not held.
pub const NONE: u8 = 255;

// A card: what it means, and the calls that answer by that meaning. No call changes it.
pub trait Card {
    ghost meaning: { Self → Meaning };

    // How many lines the card has.
    fn lines(&self) -> u8
        ensures { result ≡ (meaning self.now).lines };

    // How many cells the card has.
    fn cells(&self) -> u8
        ensures { result ≡ (meaning self.now).cells };

    // How many columns the card has.
    fn columns(&self) -> u8
        ensures { result ≡ (meaning self.now).columns };

    // How many positions a cell has.
    fn positions(&self, cell: u8) -> Result<u8, Fault>
        ensures { Counted (meaning self.now) cell result };

    // The column sheet: where an input stands after so many columns under a setting.
    fn place(&self, setting: &[u8], input: u8, passed: u8) -> Result<u8, Fault>
        ensures { placing.Placed (meaning self.now) setting.now input passed result };

    // Fills the buffer with the first setting that carries the plan and keeps the holds.
    fn settle(&self, plan: &Plan, holds: &[u8], setting: &mut [u8]) -> Result<(), Fault>
        ensures { Settled (meaning self.now) (pairs_of plan.now) holds.now setting.old setting.new result };

    // The checks that come before a place is answered.
    fn check_place(&self, setting: &[u8], input: u8, passed: u8) -> Result<(), Fault>
        ensures { placing.Checked (meaning self.now) setting.now input passed result }
    {
        let cells = self.cells();
        if setting.len() != cells as usize {
            return Err(Fault {
                cause: Cause::WrongLength,
                layer: Layer::Card,
                place: 0,
            });
        }
        // The slice is the whole setting, cut at the count: so the loop is compiled to one count, which is faster.
        for (cell, &position) in (0..cells).zip(&setting[..cells as usize]) {
            let positions = self.positions(cell)?;
            if position >= positions {
                return Err(Fault {
                    cause: Cause::SheetPosition,
                    layer: Layer::Card,
                    place: cell,
                });
            }
        }
        if input >= self.lines() {
            return Err(Fault {
                cause: Cause::NoInput,
                layer: Layer::Card,
                place: input,
            });
        }
        if passed > self.columns() {
            return Err(Fault {
                cause: Cause::PastColumns,
                layer: Layer::Card,
                place: passed,
            });
        }
        Ok(())
    }

    // The checks that come before settling.
    fn check_settle(&self, plan: &Plan, holds: &[u8], setting: &[u8]) -> Result<(), Fault>
        ensures { Checked (meaning self.now) (pairs_of plan.now) holds.now setting.now result }
    {
        let cells = self.cells();
        if plan.lines() != self.lines()
            || holds.len() != cells as usize
            || setting.len() != cells as usize
        {
            return Err(Fault {
                cause: Cause::WrongLength,
                layer: Layer::Card,
                place: 0,
            });
        }
        for (i, &hold) in holds.iter().enumerate() {
            let cell = i as u8;
            if hold != NONE && hold >= self.positions(cell)? {
                return Err(Fault {
                    cause: Cause::NoPosition,
                    layer: Layer::Card,
                    place: cell,
                });
            }
        }
        Ok(())
    }

    ghost sound: { (c : Self) → Sound (meaning c) };
}
