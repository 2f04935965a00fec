// A halving card of any family.
ghost use Rattle.std.specs.Prelude.{◌≡◌, Ok, Err};
ghost use Rattle.halving.specs.Building.{Built, Unbuildable};
ghost use Rattle.halving.specs.Halving.{halving};
ghost use Rattle.halving.specs.Soundness.{family_sound};

use super::levels::Level;
use super::outer::OuterColumns;
use super::places::place_after;
use super::routes::Routes;
use super::settling::settle_level;
use card::Card;
use card::fault::{Cause, Fault, Layer};
use card::plan::Plan;

// A card of 2, 4, 8 or 16 lines: the outer columns of its family around two half cards, or at level 0 one cell.
#[derive(Clone, Copy, Drop)]
pub struct HalvingCard<F> {
    family: F,
    level: Level,
}

impl<F: OuterColumns + Drop> HalvingCard<F> {
    // A card of a family, with so many lines.
    pub fn new(family: F, lines: u8) -> Result<HalvingCard<F>, Fault>
        ensures { elim result [ Ok c ↦ Built lines c.level.depth × (c.family ≡ family) | Err e ↦ Unbuildable lines e ] }
    {
        let level = Level::of_lines(lines)?;
        Ok(HalvingCard { family, level })
    }

    // The kind number of the card.
    pub fn kind(&self) -> u8
        ensures { result ≡ F.KIND }
    {
        F::KIND
    }
}

impl<F: Routes> Card for HalvingCard<F> {
    ghost meaning = { λ c. halving F.OUTER c.level.depth };

    ghost sound = { λ c. family_sound F.OUTER F.counted c.level.depth c.level.small };

    fn lines(&self) -> u8 {
        self.level.lines() as u8
    }

    fn cells(&self) -> u8 {
        self.level.cells::<F>() as u8
    }

    fn columns(&self) -> u8 {
        self.level.columns::<F>() as u8
    }

    // Every cell has two.
    fn positions(&self, cell: u8) -> Result<u8, Fault> {
        if cell >= self.cells() {
            return Err(Fault {
                cause: Cause::NoCell,
                layer: Layer::Card,
                place: cell,
            });
        }
        Ok(2)
    }

    fn place(&self, setting: &[u8], input: u8, passed: u8) -> Result<u8, Fault> {
        self.check_place(setting, input, passed)?;
        Ok(place_after::<F>(self.level, setting, input as usize, passed as usize) as u8)
    }

    // The search writes to a list of its own, so that the buffer stays as it was where no setting fits.
    fn settle(&self, plan: &Plan, holds: &[u8], setting: &mut [u8]) -> Result<(), Fault> {
        self.check_settle(plan, holds, setting)?;
        let table = plan.outputs();
        let pairs = &table[..plan.lines() as usize];
        // A plain array, since cards use no heap.
        let mut room = [0; 56];
        let scratch = &mut room[..self.cells() as usize];
        if !settle_level(&self.family, self.level, pairs, holds, scratch) {
            return Err(Fault {
                cause: Cause::NoSetting,
                layer: Layer::Card,
                place: 0,
            });
        }
        setting.copy_from_slice(scratch);
        Ok(())
    }
}
