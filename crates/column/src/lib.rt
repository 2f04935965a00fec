// Column cards: one cell in each column, whose positions apply the leaders of a family.
#![tactic(auto)]

pub mod columns;
pub mod families;
pub mod leaders;
mod settling;

#[cfg(test)]
mod tests {
    use super::columns::ColumnCard;
    use super::families::{Bbc, Klw};
    use super::leaders::Leaders;
    use card::fault::{Cause, Fault, Layer};
    use card::plan::Plan;
    use card::{Card, NONE};
    use std::test::Fail;

    // Settles these pairs on a card of so many lines.
    fn settled<F: Leaders + Drop>(
        family: F,
        lines: u8,
        pairs: &[u8],
        holds: &[u8],
        setting: &mut [u8],
    ) -> Result<(), Fault> {
        let card = ColumnCard::new(family, lines)?;
        let mut plan = Plan::idle(lines)?;
        plan.fill(pairs)?;
        card.settle(&plan, holds, setting)
    }

    #[test]
    fn full_plan(rt: HostRuntime) -> Result<(), Fail> {
        let pairs = [2, 4, 1, 5, 0, 3];
        let mut setting = [0; 5];
        settled(Bbc, 6, &pairs, &[NONE; 5], &mut setting)?;
        assert_eq!(rt; setting, [4, 1, 0, 1, 0]);
        settled(Klw, 6, &pairs, &[NONE; 5], &mut setting)?;
        assert_eq!(rt; setting, [4, 1, 0, 2, 1]);
        Ok(())
    }

    #[test]
    fn held_cell(rt: HostRuntime) -> Result<(), Fail> {
        let mut setting = [9; 2];
        let refused = settled(Klw, 3, &[0, NONE, NONE], &[1, NONE], &mut setting);
        assert_eq!(rt;
            refused,
            Err(Fault {
                cause: Cause::NoSetting,
                layer: Layer::Card,
                place: 0,
            })
        );
        assert_eq!(rt; setting, [9, 9]);
        settled(Klw, 3, &[1, NONE, NONE], &[1, NONE], &mut setting)?;
        assert_eq!(rt; setting, [1, 1]);
        Ok(())
    }

    #[test]
    fn sheet(rt: HostRuntime) -> Result<(), Fail> {
        let card = ColumnCard::new(Bbc, 6)?;
        let setting = [4, 1, 0, 1, 0];
        assert_eq!(rt; card.place(&setting, 0, 0)?, 0);
        assert_eq!(rt; card.place(&setting, 0, 2)?, 1);
        assert_eq!(rt; card.place(&setting, 0, 5)?, 2);
        Ok(())
    }
}
