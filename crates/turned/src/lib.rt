// Cards fitted back to front: a line goes through their columns from the last to the first.
#![tactic(auto)]

ghost use Rattle.std.specs.Prelude.{◌≡◌};
ghost use Rattle.card.specs.Meaning.{Same};
ghost use Rattle.turned.specs.Turning.{turned_meaning, Sourced, BackToFront};
ghost use Rattle.turned.specs.Soundness.{turned_sound};

mod ending;
pub mod over;

use card::Card;
use card::fault::Fault;
use card::plan::Plan;
use ending::ending_at;
use over::turned_over;

// Any card, turned back to front. Its cells and their positions are those of the card beneath.
#[derive(Drop)]
pub struct Turned<C> {
    card: C,
}

impl<C: Card> Turned<C> {
    // The card, back to front.
    pub fn new(card: C) -> Turned<C>
        ensures holds { result.card ≡ card }
        ensures sourced { Sourced (C.Card.meaning result.card) }
        ensures turned { BackToFront (C.Card.meaning result.card) (turned_meaning (C.Card.meaning result.card)) }
    {
        Turned { card }
    }

    // Takes the card out again. It means what this card would mean if it were turned once more.
    pub fn into_card(self) -> C
        ensures holds { result ≡ self.card }
        ensures twice { Same (C.Card.meaning result) (turned_meaning (turned_meaning (C.Card.meaning self.card))) }
    {
        self.card
    }
}

impl<C: Card> Card for Turned<C> {
    ghost meaning = { λ t. turned_meaning (C.Card.meaning t.card) };

    ghost sound = { λ c. turned_sound (C.Card.meaning c.card) (C.Card.sound c.card) };

    fn lines(&self) -> u8 {
        self.card.lines()
    }

    fn cells(&self) -> u8 {
        self.card.cells()
    }

    fn columns(&self) -> u8 {
        self.card.columns()
    }

    fn positions(&self, cell: u8) -> Result<u8, Fault> {
        self.card.positions(cell)
    }

    // Where the input beneath that ends here stands with as many columns to go.
    fn place(&self, setting: &[u8], input: u8, passed: u8) -> Result<u8, Fault> {
        self.check_place(setting, input, passed)?;
        let columns = self.card.columns();
        let entered = ending_at(&self.card, setting, input);
        self.card.place(setting, entered, columns - passed)
    }

    // The card beneath settles the plan turned over.
    fn settle(&self, plan: &Plan, holds: &[u8], setting: &mut [u8]) -> Result<(), Fault> {
        let over = turned_over(plan);
        self.card.settle(&over, holds, setting)
    }
}

#[cfg(test)]
mod tests {
    use super::over::turned_over;
    use card::NONE;
    use card::plan::Plan;
    use std::test::Fail;

    #[test]
    fn plan_turned_over(rt: HostRuntime) -> Result<(), Fail> {
        let mut plan = Plan::idle(4)?;
        plan.fill(&[2, NONE, 3, 0])?;
        let over = turned_over(&plan);
        assert_eq!(rt; over.lines(), 4);
        assert_eq!(rt; over.output(0), Some(3));
        assert_eq!(rt; over.output(1), None);
        assert_eq!(rt; over.output(2), Some(0));
        assert_eq!(rt; over.output(3), Some(2));
        Ok(())
    }
}
