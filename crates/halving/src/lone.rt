// A card of 2 lines: one cell.
ghost use Rattle.std.specs.Prelude.{◌≡◌, ℕ, ◌<◌, length};
ghost use Rattle.halving.specs.Halving.{halving};
ghost use Rattle.halving.specs.Outer.{Allowed, Fitting, Sought};

use card::NONE;

// Whether a position is the one that is wanted, if any is.
pub(super) fn allows(wanted: u8, position: u8) -> bool
    ensures { Allowed wanted position result }
{
    wanted == NONE || wanted == position
}

// Whether the cell at this position keeps its hold and carries the pairs.
fn cell_fits(position: u8, pairs: &[u8], holds: &[u8]) -> bool
    requires position { position < 2 }
    requires lines { length pairs.now ≡ 2 }
    requires sized { length holds.now ≡ 1 }
    ensures { (w : ℕ) → Fitting w position pairs.now holds.now result }
{
    allows(holds[0], position) && allows(pairs[0], position) && allows(pairs[1], 1 - position)
}

// Settles the cell; whatever it stands at before is written over. A `bool`, since callers only test it.
pub(super) fn settle_cell(pairs: &[u8], holds: &[u8], setting: &mut [u8]) -> bool
    requires lines { length pairs.now ≡ 2 }
    requires sized { length holds.now ≡ 1 }
    requires size { length setting.old ≡ 1 }
    ensures { (w : ℕ) → Sought (halving w 0) pairs.now holds.now setting.new result }
{
    for position in 0..2u8 {
        if cell_fits(position, pairs, holds) {
            setting[0] = position;
            return true;
        }
    }
    false
}
