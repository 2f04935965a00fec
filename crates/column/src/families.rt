// The two families of leaders.
ghost use Rattle.column.specs.Families.{klw, bbc};
ghost use Rattle.std.proofs.Common.{rules};

use super::leaders::Leaders;

// A leader swaps the line at the column's number with its target.
#[derive(Clone, Copy)]
pub struct Klw;

// A leader takes the line at the column's number down to its target, and the lines between go one up.
#[derive(Clone, Copy)]
pub struct Bbc;

impl Leaders for Klw {
    const KIND: u8 = 1;

    ghost KIND = { 1 };

    ghost lead = { klw };

    ghost leading = { Prim.search rules };

    fn lead(&self, target: u8, column: u8, line: u8) -> u8 {
        if line == column {
            target
        } else if line == target {
            column
        } else {
            line
        }
    }
}

impl Leaders for Bbc {
    const KIND: u8 = 2;

    ghost KIND = { 2 };

    ghost lead = { bbc };

    ghost leading = { Prim.search rules };

    fn lead(&self, target: u8, column: u8, line: u8) -> u8 {
        if line == column {
            target
        } else if target <= line && line < column {
            line + 1
        } else {
            line
        }
    }
}
