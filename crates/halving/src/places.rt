// The column sheet of a halving card.
ghost use Rattle.std.specs.Prelude.{◌≡◌, ◌<◌, ◌≤◌};
ghost use Rattle.card.specs.Meaning.{Lawful};
ghost use Rattle.halving.specs.Halving.{lines_at, columns_at, place, halving};

use super::levels::Level;
use super::outer::OuterColumns;

// Where an input stands after so many columns.
pub(super) fn place_after<F: OuterColumns>(
    level: Level,
    setting: &[u8],
    input: usize,
    passed: usize,
) -> usize
    requires lawful { Lawful (halving F.OUTER level.depth) setting.now }
    requires input { input < lines_at level.depth }
    requires reached { passed ≤ columns_at F.OUTER level.depth }
    ensures place { result ≡ place F.OUTER level.depth setting.now input passed }
    ensures within { result < lines_at level.depth }
{
    if passed == 0 {
        return input;
    }
    let Some(half) = level.half() else {
        return (setting[0] as usize + input) % 2;
    };
    let lines = half.lines();
    let cells = half.cells::<F>();
    let columns = half.columns::<F>();
    let lower = (setting[input / 2] as usize + input % 2) % 2;
    let start = F::OUTER * lines + lower * cells;
    let part = &setting[start..start + cells];
    if passed <= columns + 1 {
        lower * lines + place_after::<F>(half, part, input / 2, passed - 1)
    } else {
        let line = place_after::<F>(half, part, input / 2, columns);
        2 * line + (setting[lines + line] as usize + lower) % 2
    }
}
