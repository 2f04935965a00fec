// The calls for C.
#![tactic(auto)]

ghost use Rattle.sheets.specs.Verdicts.{verdict_number};
ghost use Rattle.by_kind.specs.Answering.{SheetAnswer, PlaceAnswer};
ghost use Rattle.codes.specs.Codes.{Coded, CodedSettling};

use kinds::plain::CardName;

// Checks a sheet for a plan and holds: 0 if it is the first setting that fits, 1 if it fits and another comes first.
#[unsafe(no_mangle)]
pub extern "C" fn wimbleyam_check(
    kind: u8,
    lines: u8,
    plan: &[u8],
    holds: &[u8],
    sheet: &[u8],
) -> u32
    ensures { Coded verdict_number (SheetAnswer kind lines plan.now holds.now sheet.now) result }
{
    codes::check(CardName { kind, lines }, plan, holds, sheet)
}

// The column sheet: the place of an input after so many columns under a setting.
#[unsafe(no_mangle)]
pub extern "C" fn wimbleyam_place(
    kind: u8,
    lines: u8,
    setting: &[u8],
    input: u8,
    columns: u8,
) -> u32
    ensures { Coded (λ place. place) (PlaceAnswer kind lines setting.now input columns) result }
{
    codes::place(CardName { kind, lines }, setting, input, columns)
}

// Fills the buffer with the first setting that fits a plan and holds, and answers 0; or leaves it as it was.
#[unsafe(no_mangle)]
pub extern "C" fn wimbleyam_settle(
    kind: u8,
    lines: u8,
    plan: &[u8],
    holds: &[u8],
    out: &mut [u8],
) -> u32
    ensures { CodedSettling kind lines plan.now holds.now out.old out.new result }
{
    codes::settle(CardName { kind, lines }, plan, holds, out)
}
