// How a family's outer columns take a line to its output.
ghost use Rattle.std.specs.Prelude.{◌≡◌, ◌*◌, ◌<◌, ◌≤◌, length};
ghost use Rattle.halving.specs.Halving.{lines_at};
ghost use Rattle.halving.specs.Outer.{before, inner, out_cell, out_position};

use super::levels::Level;
use super::outer::OuterColumns;

pub(super) trait Routes: OuterColumns {
    // The line of its half that an output leaves from.
    fn inner(&self, half: Level, output: u8) -> u8
        ensures { result ≡ inner Self.OUTER (lines_at half.depth) output };

    // The cell of the last outer column that an input passes on its way to an output.
    fn cell(&self, input: usize, output: u8) -> usize
        ensures { result ≡ out_cell Self.OUTER input output };

    // The position that it wants there, where the columns before that one have these cells.
    fn position(&self, half: Level, first: &[u8], input: usize, output: u8) -> u8
        requires first { length first.now ≡ before Self.OUTER (lines_at half.depth) }
        requires inside { input < 2 * lines_at half.depth }
        ensures { result ≡ out_position Self.OUTER (lines_at half.depth) first.now input output };
}
