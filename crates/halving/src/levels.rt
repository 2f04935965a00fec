// The level of a card, and the counts that follow from it.
ghost use Rattle.std.specs.Prelude.{◌≡◌, ◌<◌, ◌≤◌, suc, Ok, Err, MatchOption};
ghost use Rattle.halving.specs.Building.{Built, Unbuildable};
ghost use Rattle.halving.specs.Halving.{lines_at, cells_at, columns_at};

use super::outer::OuterColumns;
use card::fault::{Cause, Fault, Layer};

// How often a card halves before it is one cell.
#[derive(Clone, Copy)]
pub(super) struct Level {
    depth: usize,
    ghost small: { depth < 4 },
}

impl Level {
    // The level of a card with so many lines. Not a `TryFrom`: `Level::try_from(2)` would read as level 2.
    pub(super) fn of_lines(lines: u8) -> Result<Level, Fault>
        ensures { elim result [ Ok l ↦ Built lines l.depth | Err e ↦ Unbuildable lines e ] }
    {
        match lines {
            2 => Ok(Level { depth: 0 }),
            4 => Ok(Level { depth: 1 }),
            8 => Ok(Level { depth: 2 }),
            16 => Ok(Level { depth: 3 }),
            _ => Err(Fault {
                cause: Cause::UnknownCard,
                layer: Layer::Card,
                place: lines,
            }),
        }
    }

    // The level of the two halves; one cell has none.
    pub(super) fn half(self) -> Option<Level>
        ensures { MatchOption result (self.depth ≡ 0) (λ h. self.depth ≡ suc h.depth) }
    {
        match self.depth {
            0 => None,
            depth => Some(Level { depth: depth - 1 }),
        }
    }

    // The lines of the card.
    pub(super) fn lines(self) -> usize
        ensures count { result ≡ lines_at self.depth }
        ensures some { 2 ≤ result }
        ensures few { result ≤ 16 }
    {
        2 << self.depth
    }

    // The columns of the card.
    pub(super) fn columns<F: OuterColumns>(self) -> usize
        ensures count { result ≡ columns_at F.OUTER self.depth }
        ensures few { result ≤ 7 }
    {
        F::OUTER * self.depth + 1
    }

    // The cells of the card: each column has one for every two lines.
    pub(super) fn cells<F: OuterColumns>(self) -> usize
        ensures count { result ≡ cells_at F.OUTER self.depth }
        ensures few { result ≤ 56 }
    {
        self.columns::<F>() << self.depth
    }
}
