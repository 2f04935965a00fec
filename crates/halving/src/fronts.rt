// The outer columns of a card, tried one after the other: the column that the pairs do not force has every setting, by number.
ghost use Rattle.std.specs.Prelude.{◌≡◌, ◌*◌, ◌^◌, ◌<◌, ◌≤◌, length};
ghost use Rattle.halving.specs.Halving.{lines_at};
ghost use Rattle.halving.specs.Outer.{before, value, Bits, Pairable, Holding, Keeping, Tried};

use super::forcing::{fill, force, start};
use super::levels::Level;
use super::lone::allows;
use super::routes::Routes;

// Writes column `n`: cell 0 has the highest digit, so that the columns come in the order of settings.
fn write_number(n: usize, column: &mut [u8])
    requires number { n < 2 ^ length column.old }
    requires few { length column.old ≤ 16 }
    ensures number { value (length column.old) column.new ≡ n }
    ensures bits { Bits (length column.old) column.new }
{
    let mut rest = n;
    // By index: tried with `iter_mut().rev()`, of which nothing says what the column ends as.
    for c in (0..column.len()).rev() {
        column[c] = (rest % 2) as u8;
        rest /= 2;
    }
}

// Whether the cells keep their holds.
fn kept(holds: &[u8], column: &[u8]) -> bool
    requires { length holds.now ≡ length column.now }
    ensures { Keeping (length column.now) holds.now column.now result }
{
    holds
        .iter()
        .zip(column)
        .all(|(hold, position)| allows(*hold, *position))
}

// Writes the outer columns of number `n`, and says whether they serve: a `bool`, since callers only test it.
pub(super) fn try_front<F: Routes>(
    family: &F,
    half: Level,
    n: usize,
    pairs: &[u8],
    holds: &[u8],
    front: &mut [u8],
) -> bool
    requires number { n < 2 ^ before F.OUTER (lines_at half.depth) }
    requires lines { length pairs.now ≡ 2 * lines_at half.depth }
    requires size { length front.old ≡ F.OUTER * lines_at half.depth }
    requires sized { length holds.now ≡ F.OUTER * lines_at half.depth }
    requires pairable { Pairable (2 * lines_at half.depth) pairs.now }
    requires holding { Holding (F.OUTER * lines_at half.depth) holds.now }
    ensures { Tried F.OUTER (lines_at half.depth) n pairs.now holds.now front.new result }
{
    let forced = front.len() - half.lines();
    let (first, last) = front.split_at_mut(forced);
    let (first_holds, last_holds) = holds.split_at(forced);
    write_number(n, first);
    if !kept(first_holds, first) {
        return false;
    }
    start(last_holds, last);
    if !force(family, half, pairs, first, last) {
        return false;
    }
    fill(last);
    true
}
