// The calls on a card that is named by its kind and line count.
ghost use Rattle.std.specs.Prelude.{◌≡◌, OnErr};
ghost use Rattle.card.specs.Placing.{Placed};
ghost use Rattle.card.specs.Settling.{Counted};
ghost use Rattle.cases.specs.Calls.{OnCard, SettledPairs, CarriedCount};

use cabinet::Cabinet;
use card::Card;
use card::fault::Fault;
use card::plan::Plan;
use kinds::plain::CardName;

// Settles a plan of any length under holds.
pub fn settle(name: CardName, pairs: &[u8], holds: &[u8], setting: &mut [u8]) -> Result<(), Fault>
    ensures answer { OnCard name.kind name.lines (λ m. SettledPairs m pairs.now holds.now setting.old setting.new) result }
    ensures refused { OnErr result (setting.new ≡ setting.old) }
{
    let card = name.build()?;
    let mut plan = Plan::idle(2)?;
    plan.fill(pairs)?;
    card.settle(&plan, holds, setting)
}

// The place of an input after so many columns.
pub fn place(name: CardName, setting: &[u8], input: u8, passed: u8) -> Result<u8, Fault>
    ensures { OnCard name.kind name.lines (λ m. Placed m setting.now input passed) result }
{
    name.build()?.place(setting, input, passed)
}

// How many positions a cell has.
pub fn positions(name: CardName, cell: u8) -> Result<u8, Fault>
    ensures { OnCard name.kind name.lines (λ m. Counted m cell) result }
{
    name.build()?.positions(cell)
}

// How many outputs a fresh cabinet fills from so many line numbers.
pub fn carry(name: CardName, given: u8, out: u8) -> Result<u8, Fault>
    ensures { OnCard name.kind name.lines (CarriedCount given out) result }
{
    let cabinet = Cabinet::commission(name.build()?);
    let numbers = [7u8; 255];
    let mut table = [9u8; 255];
    cabinet.carry(&numbers[..given as usize], &mut table[..out as usize])?;
    Ok(out)
}
