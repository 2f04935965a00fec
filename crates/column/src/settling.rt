// The columns of a card, and the search for their first setting that fits, from the last column down to the first.
ghost use Rattle.std.specs.Prelude.{◌≡◌, ℕ, ◌-◌, ◌<◌, ◌≤◌, length, drop, MatchOption, ◌≢◌};
ghost use Rattle.column.specs.Passing.{turned};
ghost use Rattle.column.specs.Serving.{Pulled, Blocked, Served, Unserved, Sought, Written};

use super::leaders::Leaders;
use card::NONE;
use card::fault::{Cause, Fault, Layer};

// Columns 1 to the last of a family; none of them is left where the last is 0.
#[derive(Drop)]
pub(super) struct Columns<'a, F> {
    pub(super) family: &'a F,
    pub(super) last: u8,
    ghost few: { last < 16 },
}

impl<F: Leaders> Columns<'_, F> {
    // What the last column at a position does to a line: position 0 leaves the line in place; the position above each target applies the leader with that target.
    pub(super) fn turn(&self, position: u8, line: u8) -> u8
        ensures { result ≡ turned F.Leaders.lead position self.now.last line }
    {
        if position == 0 {
            line
        } else {
            self.family.lead(position - 1, self.last, line)
        }
    }

    // The line below the last column that a position sends to an output.
    fn back(&self, position: u8, output: u8) -> Option<u8>
        ensures { MatchOption result ((p : ℕ) → p < self.now.last → turned F.Leaders.lead position self.now.last p ≢ output) (λ p. (p < self.now.last) × (turned F.Leaders.lead position self.now.last p ≡ output)) }
    {
        (0..self.last).find(|line| self.turn(position, *line) == output)
    }

    // The pairs that are left for the columns before the last, if it stands at this position: an array, since a card uses no heap.
    fn pull(&self, position: u8, outputs: [u8; 16]) -> Option<[u8; 16]>
        ensures { MatchOption result (Blocked F.Leaders.lead position self.now.last outputs) (λ rest. Pulled F.Leaders.lead position self.now.last outputs rest) }
    {
        let mut rest = [NONE; 16];
        for (i, &output) in outputs[..self.last as usize].iter().enumerate() {
            if output != NONE {
                rest[i] = self.back(position, output)?;
            }
        }
        Some(rest)
    }

    // The pairs that are left if the last column stands at this position, or none where the hold or the pairs rule the position out.
    fn serve(&self, position: u8, outputs: [u8; 16], hold: u8) -> Option<[u8; 16]>
        requires { (1 ≤ self.now.last) × (position ≤ self.now.last) }
        ensures { MatchOption result (Unserved F.Leaders.lead self.now.last outputs hold position) (λ rest. Served F.Leaders.lead self.now.last (self.now.last - 1) outputs hold position rest) }
    {
        if hold != NONE && hold != position {
            return None;
        }
        // No column before this one moves the line at its own number.
        let wanted = outputs[self.last as usize];
        if wanted != NONE && self.turn(position, self.last) != wanted {
            return None;
        }
        self.pull(position, outputs)
    }

    // Settles the columns, whose cells are the last of the list. A position is taken back when what follows fails. A yes or
    // no and no option: what is found stands in the list.
    fn seek(&self, outputs: [u8; 16], holds: &[u8], setting: &mut [u8]) -> bool
        requires { (self.now.last ≤ length setting.old) × (length holds.now ≡ length setting.old) }
        ensures { Sought F.Leaders.lead self.now.last outputs (drop (length holds.now - self.now.last) holds.now) (drop (length setting.new - self.now.last) setting.new) result }
    {
        if self.last == 0 {
            return outputs[0] == NONE || outputs[0] == 0;
        }
        let before = Columns {
            family: self.family,
            last: self.last - 1,
        };
        let cell = setting.len() - self.last as usize;
        for position in 0..=self.last {
            let fits = match self.serve(position, outputs, holds[cell]) {
                Some(rest) => before.seek(rest, holds, setting),
                None => false,
            };
            if fits {
                setting[cell] = position;
                return true;
            }
        }
        false
    }

    // Settles the columns on the scratch list, and copies what was found. Where no setting fits, the buffer stays as it was.
    pub(super) fn settle(
        &self,
        outputs: [u8; 16],
        holds: &[u8],
        scratch: &mut [u8],
        setting: &mut [u8],
    ) -> Result<(), Fault>
        requires { (length holds.now ≡ self.now.last) × ((length scratch.old ≡ self.now.last) × (length setting.old ≡ self.now.last)) }
        ensures { Written F.Leaders.lead self.now.last outputs holds.now setting.old setting.new result }
    {
        if self.seek(outputs, holds, scratch) {
            setting.copy_from_slice(scratch);
            Ok(())
        } else {
            Err(Fault {
                cause: Cause::NoSetting,
                layer: Layer::Card,
                place: 0,
            })
        }
    }
}
