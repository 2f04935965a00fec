// A column whose cells are put where pairs want them: first its holds, then the pairs, then 0 where a cell is still free.
ghost use Rattle.std.specs.Prelude.{◌≡◌, ◌*◌, ◌<◌, length};
ghost use Rattle.halving.specs.Halving.{lines_at};
ghost use Rattle.halving.specs.Column.{Open, Put, Filling, Forcing};
ghost use Rattle.halving.specs.Outer.{before, wanted_cell, wanted_position, Pairable};

use super::levels::Level;
use super::routes::Routes;
use card::NONE;

// Writes the holds of the cells into them; a cell that is not held is free.
pub(super) fn start(holds: &[u8], column: &mut [u8])
    requires { length holds.now ≡ length column.old }
    ensures { column.new ≡ holds.now }
{
    // A loop: tried with `copy_from_slice`, which calls the C library, and settling took longer than before.
    for (c, cell) in column.iter_mut().enumerate() {
        *cell = holds[c];
    }
}

// Puts a free cell to a position; false if it stands at another. Here and below a `bool`, since callers only test it.
fn put(cell: &mut u8, position: u8) -> bool
    ensures { Put position cell.old cell.new result }
{
    if *cell == NONE {
        *cell = position;
    }
    *cell == position
}

// Puts each cell of the last outer column where the inputs that pass it want it; false if it cannot. An idle input wants nothing.
pub(super) fn force<F: Routes>(
    family: &F,
    half: Level,
    pairs: &[u8],
    first: &[u8],
    column: &mut [u8],
) -> bool
    requires lines { length pairs.now ≡ 2 * lines_at half.depth }
    requires before { length first.now ≡ before F.OUTER (lines_at half.depth) }
    requires size { length column.old ≡ lines_at half.depth }
    requires pairable { Pairable (2 * lines_at half.depth) pairs.now }
    requires start { Open column.old }
    ensures { Forcing (wanted_cell F.OUTER pairs.now) (wanted_position F.OUTER (lines_at half.depth) pairs.now first.now) pairs.now column.old column.new result }
{
    for (input, &output) in pairs.iter().enumerate() {
        if output != NONE {
            let cell = family.cell(input, output);
            let position = family.position(half, first, input, output);
            if !put(&mut column[cell], position) {
                return false;
            }
        }
    }
    true
}

// Puts every free cell to 0.
pub(super) fn fill(column: &mut [u8])
    ensures { Filling column.old column.new }
{
    for cell in column {
        if *cell == NONE {
            *cell = 0;
        }
    }
}
