// A cabinet: any card under orders.
#![tactic(auto)]

ghost use Rattle.std.specs.Prelude.{◌≡◌, ◌≤◌, [], ◌∷◌, length};
ghost use Rattle.cabinet.specs.Orders.{Row};
ghost use Rattle.cabinet.specs.Logs.{Log, moved as moved_count};
ghost use Rattle.cabinet.specs.States.{standing, Adopted};

mod carrying;
mod checking;
pub mod command;
mod ordering;
pub mod serving;

use card::fault::Fault;
use card::plan::Plan;
use card::{Card, NONE};

// What stands in a cabinet, copied by value and stored back whole: so the holds and the setting are arrays, with room
// for more cells than the card has.
#[derive(Clone, Copy)]
struct State {
    plan: Plan,
    holds: [u8; 64],
    setting: [u8; 64],
}

// A card, and what stands in it. It has no model of its own: `standing` cuts the state to the card's counts, and contracts
// speak of the card's meaning beside it.
#[derive(Drop)]
pub struct Cabinet<C> {
    card: C,
    state: State,
}

// In how many cells two settings differ.
fn differing(before: &[u8], after: &[u8]) -> u8
    requires { (length before.now ≤ 64) × (length after.now ≡ length before.now) }
    ensures { result ≡ moved_count (length before.now) before.now after.now }
{
    let mut count = 0;
    for (x, y) in before.iter().zip(after) {
        if x != y {
            count += 1;
        }
    }
    count
}

impl<C: Card> Cabinet<C> {
    // A cabinet over the card, with every line idle, no hold and all cells at 0.
    pub fn commission(card: C) -> Cabinet<C>
        ensures card { result.card ≡ card }
        ensures log { Log (C.Card.meaning card) (Row.commissioned (C.Card.meaning card).lines (C.Card.meaning card).cells ∷ []) (standing (C.Card.meaning card) result.state) }
    {
        let Ok(plan) = Plan::idle(card.lines()) else {
            unreachable()
        };
        Cabinet {
            card,
            state: State {
                plan,
                holds: [NONE; 64],
                setting: [0; 64],
            },
        }
    }

    // The card.
    pub fn card(&self) -> &C
        ensures { result.now ≡ self.now.card }
    {
        &self.card
    }

    // The standing setting, in a table that has room for more cells than the card has.
    pub fn setting(&self) -> [u8; 64]
        ensures { result ≡ self.now.state.setting }
    {
        self.state.setting
    }

    // The standing setting: a position for each cell, not copied.
    pub fn standing_setting(&self) -> &[u8]
        ensures { result.now ≡ (standing (C.Card.meaning self.now.card) self.now.state).setting }
    {
        &self.state.setting[..self.card.cells() as usize]
    }

    // Settles a state anew and takes it over: the first setting for its pairs and holds, in place of its own. Answers how
    // many cells moved; where settling refuses, what stands stays.
    fn adopt(&mut self, next: State) -> Result<u8, Fault>
        ensures { Adopted C.Card.meaning self.old next result self.new }
    {
        let cells = self.card.cells() as usize;
        let mut setting = next.setting;
        self.card
            .settle(&next.plan, &next.holds[..cells], &mut setting[..cells])?;
        let moved = differing(&next.setting[..cells], &setting[..cells]);
        self.state = State { setting, ..next };
        Ok(moved)
    }
}
