// The calls on a card that is named by its kind and line count, with the answer of each as one number.
#![tactic(auto)]

ghost use Rattle.std.specs.Prelude.{◌≡◌};
ghost use Rattle.sheets.specs.Verdicts.{verdict_number};
ghost use Rattle.by_kind.specs.Answering.{SheetAnswer, PlaceAnswer};
ghost use Rattle.codes.specs.Codes.{fault_code, Coded, CodedSettling};

use card::fault::Fault;
use kinds::plain::CardName;

// A refusal as a number: 65,536 times its cause, 256 times its layer, and its place.
fn code(fault: Fault) -> u32
    ensures { result ≡ fault_code fault }
{
    65_536 * u32::from(fault.number())
        + 256 * u32::from(fault.layer_number())
        + u32::from(fault.place)
}

// Checks a sheet for a plan and holds: 0 if it is the first setting that fits, 1 if it fits and another comes first.
pub fn check(name: CardName, plan: &[u8], holds: &[u8], sheet: &[u8]) -> u32
    ensures { Coded verdict_number (SheetAnswer name.kind name.lines plan.now holds.now sheet.now) result }
{
    match by_kind::check(name, plan, holds, sheet) {
        Ok(verdict) => u32::from(verdict.number()),
        Err(fault) => code(fault),
    }
}

// The column sheet: the place of an input after so many columns under a setting.
pub fn place(name: CardName, setting: &[u8], input: u8, columns: u8) -> u32
    ensures { Coded (λ place. place) (PlaceAnswer name.kind name.lines setting.now input columns) result }
{
    match by_kind::place(name, setting, input, columns) {
        Ok(place) => u32::from(place),
        Err(fault) => code(fault),
    }
}

// Fills the buffer with the first setting that fits a plan and holds, and answers 0; or leaves it as it was.
pub fn settle(name: CardName, plan: &[u8], holds: &[u8], out: &mut [u8]) -> u32
    ensures { CodedSettling name.kind name.lines plan.now holds.now out.old out.new result }
{
    match by_kind::settle(name, plan, holds, out) {
        Ok(()) => 0,
        Err(fault) => code(fault),
    }
}
