// What a text asks to be checked.
ghost use Rattle.sheets.specs.Sole.{Sole};
ghost use Rattle.by_kind.specs.Answering.{SheetAnswer};
ghost use Rattle.sheet_text.specs.Lists.{values};

use super::numbers::Numbers;
use card::fault::Fault;
use kinds::plain::CardName;
use sheets::Verdict;

// A card by its kind and line count, a plan, holds and a sheet.
#[derive(Clone, Copy)]
pub struct Request {
    pub kind: u8,
    pub lines: u8,
    pub plan: Numbers,
    pub holds: Numbers,
    pub sheet: Numbers,
}

impl Request {
    // The verdict on the sheet.
    pub fn check(&self) -> Result<Verdict, Fault>
        ensures { Sole (SheetAnswer self.now.kind self.now.lines (values self.now.plan) (values self.now.holds) (values self.now.sheet)) result }
    {
        by_kind::check(
            CardName {
                kind: self.kind,
                lines: self.lines,
            },
            self.plan.as_slice(),
            self.holds.as_slice(),
            self.sheet.as_slice(),
        )
    }
}
