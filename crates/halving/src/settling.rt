// The search for the first setting that fits: over the outer columns, and with each over the two halves.
ghost use Rattle.std.specs.Prelude.{suc};
ghost use Rattle.card.specs.Settling.{Settleable};
ghost use Rattle.halving.specs.Halving.{lines_at, halving};
ghost use Rattle.halving.specs.Outer.{Pairable, Sought};

use super::fronts::try_front;
use super::halves::half_plan;
use super::levels::Level;
use super::lone::settle_cell;
use super::routes::Routes;
use card::NONE;

// Settles a card of this level, and says whether a setting fits. A `bool`: callers only test it, and an error of its own would say no more.
// The pairs are a slice with a condition, not a struct with a law: in a cycle of calls no field can borrow a local today.
#[cycle(search)]
pub(super) fn settle_level<F: Routes>(
    family: &F,
    level: Level,
    pairs: &[u8],
    holds: &[u8],
    setting: &mut [u8],
) -> bool
    requires settleable { Settleable (halving F.OUTER level.depth) pairs.now holds.now setting.old }
    requires pairable { Pairable (lines_at level.depth) pairs.now }
    ensures { Sought (halving F.OUTER level.depth) pairs.now holds.now setting.new result }
{
    match level.half() {
        None => settle_cell(pairs, holds, setting),
        Some(half) => settle_halves(family, half, pairs, holds, setting),
    }
}

// Settles a card whose halves are of this level. Outer columns are taken back when a half fails. A `bool`, as above.
#[cycle(search)]
fn settle_halves<F: Routes>(
    family: &F,
    half: Level,
    pairs: &[u8],
    holds: &[u8],
    setting: &mut [u8],
) -> bool
    requires settleable { Settleable (halving F.OUTER (suc half.depth)) pairs.now holds.now setting.old }
    requires pairable { Pairable (lines_at (suc half.depth)) pairs.now }
    ensures { Sought (halving F.OUTER (suc half.depth)) pairs.now holds.now setting.new result }
{
    let lines = half.lines();
    let cells = half.cells::<F>();
    let outer = F::OUTER * lines;
    let (front_holds, rest_holds) = holds.split_at(outer);
    let (upper_holds, lower_holds) = rest_holds.split_at(cells);
    let (front, rest) = setting.split_at_mut(outer);
    let (upper, lower) = rest.split_at_mut(cells);
    // A plain array, since cards use no heap.
    let mut room = [NONE; 16];
    let plan = &mut room[..lines];
    for n in 0..1usize << (outer - lines) {
        if !try_front(family, half, n, pairs, front_holds, front) {
            continue;
        }
        half_plan(family, half, 0, pairs, &front[..lines], plan);
        if !settle_level(family, half, plan, upper_holds, upper) {
            continue;
        }
        half_plan(family, half, 1, pairs, &front[..lines], plan);
        if settle_level(family, half, plan, lower_holds, lower) {
            return true;
        }
    }
    false
}
