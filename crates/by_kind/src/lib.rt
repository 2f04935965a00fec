// The calls on a card that is named by its kind and line count, over plain numbers and lists.
#![tactic(auto)]

ghost use Rattle.card.specs.Plans.{Lines};
ghost use Rattle.sheets.specs.Sole.{Sole};
ghost use Rattle.by_kind.specs.Planning.{Planned};
ghost use Rattle.by_kind.specs.Answering.{SheetAnswer, PlaceAnswer, SettleAnswer};

use card::Card;
use card::fault::{Cause, Fault, Layer};
use card::plan::Plan;
use kinds::plain::CardName;
use sheets::Verdict;

// A plan of these pairs for so many lines.
fn planned(lines: u8, pairs: &[u8]) -> Result<Plan, Fault>
    requires { Lines lines }
    ensures { Planned lines pairs.now result }
{
    if pairs.len() != lines as usize {
        return Err(Fault {
            cause: Cause::WrongLength,
            layer: Layer::Cabinet,
            place: 0,
        });
    }
    let mut plan = Plan::idle(lines)?;
    plan.fill(pairs)?;
    Ok(plan)
}

// Checks a sheet for pairs and holds.
pub fn check(name: CardName, pairs: &[u8], holds: &[u8], sheet: &[u8]) -> Result<Verdict, Fault>
    ensures { Sole (SheetAnswer name.kind name.lines pairs.now holds.now sheet.now) result }
{
    let card = name.build()?;
    let plan = planned(card.lines(), pairs)?;
    let cells = card.cells() as usize;
    // An array with room for every card, since these calls use no heap.
    let mut table = [0; 64];
    card.settle(&plan, holds, &mut table[0..cells])?;
    sheets::check(&card, &plan, holds, &table[0..cells], sheet)
}

// The column sheet: where an input stands after so many columns under a setting.
pub fn place(name: CardName, setting: &[u8], input: u8, passed: u8) -> Result<u8, Fault>
    ensures { Sole (PlaceAnswer name.kind name.lines setting.now input passed) result }
{
    let card = name.build()?;
    card.place(setting, input, passed)
}

// Fills the buffer with the first setting that fits pairs and holds.
pub fn settle(name: CardName, pairs: &[u8], holds: &[u8], setting: &mut [u8]) -> Result<(), Fault>
    ensures { Sole (SettleAnswer name.kind name.lines pairs.now holds.now setting.old) (result, setting.new) }
{
    let card = name.build()?;
    let plan = planned(card.lines(), pairs)?;
    card.settle(&plan, holds, setting)
}
