// A family of leaders: for each column, the ways in which its cell can move the lines.
ghost use Rattle.std.specs.Prelude.{◌≡◌, ℕ};
ghost use Rattle.column.specs.Leading.{Leading};

pub trait Leaders {
    // The kind number of the family's cards.
    const KIND: u8;

    ghost KIND: { ℕ };

    // By target, column and line.
    ghost lead: { ℕ → ℕ → ℕ → ℕ };

    // Where the leader of a column with this target sends a line.
    fn lead(&self, target: u8, column: u8, line: u8) -> u8
        ensures { result ≡ lead target column line };

    ghost leading: { Leading lead };
}
