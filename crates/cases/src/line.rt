// A case: a line of text, in parts between strokes. How a text is cut into words, and what number a word writes, is
// for std to say.
ghost use Rattle.std.specs.Prelude.{◌≡◌, IfOk, slice_index};
ghost use Rattle.cases.specs.Lines.{part_of};

use kinds::plain::CardName;
use std::alloc::{AllocError, Global};

// A line, and the numbers of each of its parts.
#[derive(Drop)]
pub struct Case<'a> {
    pub text: &'a str,
    parts: Vec<Vec<u8>>,
}

// The numbers of a text; words that are no numbers are passed over.
fn numbers(heap: Global, text: &str) -> Result<Vec<u8>, AllocError> {
    text.split_whitespace()
        .filter_map(|word| word.parse::<u8>().ok())
        .collect(heap)
}

// The number at an index, or 0 past the end.
pub fn at(numbers: &[u8], i: usize) -> u8
    ensures { result ≡ slice_index numbers.now i }
{
    numbers.get(i).copied().unwrap_or(0)
}

impl<'a> Case<'a> {
    // The case of a line.
    pub fn read(heap: Global, text: &'a str) -> Result<Case<'a>, AllocError>
        ensures { IfOk result (λ c. c.text.now ≡ text.now) }
    {
        let parts = text
            .split('/')
            .map(|part| numbers(heap, part))
            .try_collect(heap)?;
        Ok(Case { text, parts })
    }

    // The numbers of a part, or none past the end.
    pub fn part(&self, i: usize) -> &[u8]
        ensures { result.now ≡ part_of self.now i }
    {
        self.parts.get(i).map(|part| part.as_slice()).unwrap_or(&[])
    }

    // A number of a part, or 0 past the end.
    pub fn number(&self, part: usize, i: usize) -> u8
        ensures { result ≡ slice_index (part_of self.now part) i }
    {
        at(self.part(part), i)
    }

    // The card that the line begins with.
    pub fn card(&self) -> CardName
        ensures kind { result.kind ≡ slice_index (part_of self.now 0) 0 }
        ensures lines { result.lines ≡ slice_index (part_of self.now 0) 1 }
    {
        CardName {
            kind: self.number(0, 0),
            lines: self.number(0, 1),
        }
    }
}
