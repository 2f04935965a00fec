// The plans of the two halves under a first column.
ghost use Rattle.std.specs.Prelude.{◌≡◌, ◌*◌, ◌<◌, length};
ghost use Rattle.halving.specs.Halving.{lines_at};
ghost use Rattle.halving.specs.Outer.{Halved, Pairable};

use super::levels::Level;
use super::routes::Routes;
use card::NONE;

// Writes the plan of half `b` under a first column: 0 is the upper, 1 the lower, a number since it is added to positions. An idle line stays idle.
pub(super) fn half_plan<F: Routes>(
    family: &F,
    half: Level,
    b: usize,
    pairs: &[u8],
    first: &[u8],
    plan: &mut [u8],
)
    requires lines { length pairs.now ≡ 2 * lines_at half.depth }
    requires size { length first.now ≡ lines_at half.depth }
    requires room { length plan.old ≡ lines_at half.depth }
    requires which { b < 2 }
    requires pairable { Pairable (2 * lines_at half.depth) pairs.now }
    ensures halved { Halved F.OUTER (lines_at half.depth) (lines_at half.depth) pairs.now first.now b plan.new }
    ensures pairable { Pairable (lines_at half.depth) plan.new }
{
    for (c, line) in plan.iter_mut().enumerate() {
        let output = pairs[2 * c + (first[c] as usize + b) % 2];
        *line = if output == NONE {
            NONE
        } else {
            family.inner(half, output)
        };
    }
}
