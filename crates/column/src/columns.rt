// A column card of any family.
ghost use Rattle.std.specs.Prelude.{◌≡◌, ℕ, ◌-◌, ◌≤◌, Ok, Err};
ghost use Rattle.column.specs.Building.{Buildable, Unbuildable};
ghost use Rattle.column.specs.Passing.{column_card};
ghost use Rattle.column.specs.Soundness.{lines_sound};

use super::leaders::Leaders;
use super::settling::Columns;
use card::Card;
use card::fault::{Cause, Fault, Layer};
use card::plan::Plan;

// A card of 2 to 8 lines: its columns are numbered from 1, one fewer than the lines, and cell 0 stands in the last.
#[derive(Drop)]
pub struct ColumnCard<F> {
    family: F,
    lines: u8,
    ghost sized: { (2 ≤ lines) × (lines ≤ 8) },
}

impl<F: Leaders + Drop> ColumnCard<F> {
    // A card of a family, with so many lines.
    pub fn new(family: F, lines: u8) -> Result<ColumnCard<F>, Fault>
        ensures { elim result [ Ok c ↦ Buildable lines × (c.lines ≡ lines) × (c.family ≡ family) | Err e ↦ Unbuildable lines e ] }
    {
        if lines < 2 || lines > 8 {
            return Err(Fault {
                cause: Cause::UnknownCard,
                layer: Layer::Card,
                place: lines,
            });
        }
        Ok(ColumnCard { family, lines })
    }

    // The kind number of the card.
    pub fn kind(&self) -> u8
        ensures { result ≡ F.Leaders.KIND }
    {
        F::KIND
    }
}

impl<F: Leaders> Card for ColumnCard<F> {
    ghost meaning = { λ c. column_card F.Leaders.lead (c.lines - 1) };

    ghost sound = { λ c. lines_sound F.Leaders.lead F.Leaders.leading c.lines c.sized.0 c.sized.1 };

    fn lines(&self) -> u8 {
        self.lines
    }

    fn cells(&self) -> u8 {
        self.lines - 1
    }

    // Each column has one cell.
    fn columns(&self) -> u8 {
        self.cells()
    }

    fn positions(&self, cell: u8) -> Result<u8, Fault> {
        if cell >= self.cells() {
            return Err(Fault {
                cause: Cause::NoCell,
                layer: Layer::Card,
                place: cell,
            });
        }
        Ok(self.lines - cell)
    }

    fn place(&self, setting: &[u8], input: u8, passed: u8) -> Result<u8, Fault> {
        self.check_place(setting, input, passed)?;
        let mut line = input;
        for column in 1..passed + 1 {
            // An index loop: columns count from 1 and cells from the last, so that the number is wanted for both.
            let cell = self.cells() - column;
            let columns = Columns {
                family: &self.family,
                last: column,
            };
            line = columns.turn(setting[cell as usize], line);
        }
        Ok(line)
    }

    fn settle(&self, plan: &Plan, holds: &[u8], setting: &mut [u8]) -> Result<(), Fault> {
        self.check_settle(plan, holds, setting)?;
        let cells = self.cells();
        let mut scratch = [0; 8];
        let room = &mut scratch[0..cells as usize];
        let columns = Columns {
            family: &self.family,
            last: cells,
        };
        columns.settle(plan.outputs(), holds, room, setting)
    }
}
