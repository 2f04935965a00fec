// The check of another house's sheet: a setting for the same pairs and holds.
#![tactic(auto)]

ghost use Rattle.std.specs.Prelude.{◌≡◌, ◌≢◌, Some, MatchOption, length, slice_index_or};
ghost use Rattle.card.specs.declared.fault.Layer.TheVariants.{Cabinet};
ghost use Rattle.card.specs.Faults.{fault};
ghost use Rattle.card.specs.Meaning.{Lawful};
ghost use Rattle.card.specs.PlanPairs.{pairs_of};
ghost use Rattle.card.specs.Settling.{none};
ghost use Rattle.sheets.specs.Verdicts.{verdict_number, verdict_words};
ghost use Rattle.sheets.specs.Checking.{PositionsChecked, HoldsChecked, PairsChecked, Compared};

use card::fault::{Cause, Fault, Layer};
use card::plan::Plan;
use card::{Card, NONE};
use std::fmt;

// What a sheet that fits is.
#[derive(Clone, Copy, PartialEq, Eq, Debug)]
pub enum Verdict {
    // the standing setting
    First = 0,
    // another setting, and the standing one comes first
    Other = 1,
}

impl Verdict {
    // The number of the verdict.
    pub fn number(&self) -> u8
        ensures { result ≡ verdict_number self.now }
    {
        *self as u8
    }
}

// The verdict in words.
pub fn verdict_words(verdict: Verdict) -> &'static str
    ensures { result.now ≡ verdict_words verdict }
{
    match verdict {
        Verdict::First => "the sheet fits and comes first",
        Verdict::Other => "the sheet fits, but another setting comes first",
    }
}

impl fmt::Display for Verdict {
    ghost output = { λ v. Some (verdict_words v) };

    fn fmt<W: fmt::Write>(&self, f: &mut fmt::Formatter<W>) -> fmt::Result {
        f.write_str(verdict_words(*self))
    }
}

// A refusal of the check.
fn refusal(cause: Cause, place: u8) -> Fault
    ensures { result ≡ fault cause Cabinet place }
{
    Fault {
        cause,
        layer: Layer::Cabinet,
        place,
    }
}

// The position that a cell is held at, if it is held.
fn held(holds: &[u8], cell: usize) -> Option<u8>
    ensures { MatchOption result (slice_index_or holds.now cell none ≡ none) (λ p. (slice_index_or holds.now cell none ≡ p) × (p ≢ none)) }
{
    let hold = *holds.get(cell)?;
    (hold != NONE).then_some(hold)
}

// Whether the sheet has a position for each cell, each in its range. The card's own checks, with the check's layer.
fn check_positions<C: Card>(card: &C, sheet: &[u8]) -> Result<(), Fault>
    ensures { PositionsChecked (C.Card.meaning card.now) sheet.now result }
{
    card.check_place(sheet, 0, 0)
        .map_err(|fault| refusal(fault.cause, fault.place))
}

// Whether every held cell has its held position.
fn check_holds<C: Card>(card: &C, holds: &[u8], sheet: &[u8]) -> Result<(), Fault>
    requires { length sheet.now ≡ (C.Card.meaning card.now).cells }
    ensures { HoldsChecked (C.Card.meaning card.now) holds.now sheet.now result }
{
    for (cell, &position) in sheet[..card.cells() as usize].iter().enumerate() {
        if let Some(hold) = held(holds, cell) {
            if position != hold {
                return Err(refusal(Cause::SheetHold, cell as u8));
            }
        }
    }
    Ok(())
}

// Whether every busy input ends at its output.
fn check_pairs<C: Card>(card: &C, plan: &Plan, sheet: &[u8]) -> Result<(), Fault>
    requires { Lawful (C.Card.meaning card.now) sheet.now }
    ensures { PairsChecked (C.Card.meaning card.now) (pairs_of plan.now) sheet.now result }
{
    let columns = card.columns();
    let lines = card.lines();
    for input in 0..lines {
        if let Some(output) = plan.output(input) {
            let place = card.place(sheet, input, columns)?;
            if place != output {
                return Err(refusal(Cause::SheetPair, input));
            }
        }
    }
    Ok(())
}

// Checks a sheet for a plan and holds, and compares it with the standing setting.
pub fn check<C: Card>(
    card: &C,
    plan: &Plan,
    holds: &[u8],
    standing: &[u8],
    sheet: &[u8],
) -> Result<Verdict, Fault>
    ensures { Compared (C.Card.meaning card.now) (pairs_of plan.now) holds.now standing.now sheet.now result }
{
    check_positions(card, sheet)?;
    check_holds(card, holds, sheet)?;
    check_pairs(card, plan, sheet)?;
    if sheet == standing {
        Ok(Verdict::First)
    } else {
        Ok(Verdict::Other)
    }
}
