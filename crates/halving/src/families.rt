// The two families of halving cards.
ghost use Rattle.std.proofs.Common.{inl, inr, refl};

use super::levels::Level;
use super::outer::OuterColumns;
use super::routes::Routes;

// A card has a first and a last column.
#[derive(Clone, Copy)]
pub struct Benes;

// A card has a first column.
#[derive(Clone, Copy)]
pub struct Baseline;

impl OuterColumns for Benes {
    const KIND: u8 = 3;

    const OUTER: usize = 2;

    ghost KIND = { 3 };

    ghost OUTER = { 2 };

    ghost counted = { inr refl };
}

impl OuterColumns for Baseline {
    const KIND: u8 = 4;

    const OUTER: usize = 1;

    ghost KIND = { 4 };

    ghost OUTER = { 1 };

    ghost counted = { inl refl };
}

impl Routes for Benes {
    fn inner(&self, _half: Level, output: u8) -> u8 {
        output / 2
    }

    fn cell(&self, _input: usize, output: u8) -> usize {
        output as usize / 2
    }

    fn position(&self, _half: Level, first: &[u8], input: usize, output: u8) -> u8 {
        let lower = (first[input / 2] as usize + input % 2) % 2;
        ((output as usize % 2 + lower) % 2) as u8
    }
}

impl Routes for Baseline {
    fn inner(&self, half: Level, output: u8) -> u8 {
        output % half.lines() as u8
    }

    fn cell(&self, input: usize, _output: u8) -> usize {
        input / 2
    }

    fn position(&self, half: Level, _first: &[u8], input: usize, output: u8) -> u8 {
        ((output as usize / half.lines() + input % 2) % 2) as u8
    }
}
