// What tells the families of halving cards apart: the columns outside the two halves.
ghost use Rattle.std.specs.Prelude.{ℕ};
ghost use Rattle.halving.specs.Halving.{OneOrTwo};

pub trait OuterColumns {
    // The kind number of the family's cards.
    const KIND: u8;

    // How many outer columns a card has above level 0.
    const OUTER: usize;

    ghost KIND: { ℕ };

    ghost OUTER: { ℕ };

    ghost counted: { OneOrTwo OUTER };
}
