// The check of another house's sheet. It changes nothing and has no row in the log.
ghost use Rattle.cabinet.specs.Checking.{Checked};
ghost use Rattle.cabinet.specs.States.{standing};

use super::Cabinet;
use card::Card;
use card::fault::Fault;
use sheets::Verdict;

impl<C: Card> Cabinet<C> {
    // Checks a sheet for the pairs and holds in force.
    pub fn check(&self, sheet: &[u8]) -> Result<Verdict, Fault>
        ensures { Checked (C.Card.meaning self.now.card) (standing (C.Card.meaning self.now.card) self.now.state) sheet.now result }
    {
        let holds = &self.state.holds[..self.card.cells() as usize];
        let standing = self.standing_setting();
        sheets::check(&self.card, &self.state.plan, holds, standing, sheet)
    }
}
