// The words of a text, and the numbers that words write. A word is a run of bytes above the space; a comment goes from
// `#` up to the end of its line.
#![tactic(auto)]

ghost use Rattle.std.specs.Prelude.{◌≡◌, ◌==◌, ◌≤◌, [], length, not, MatchOption};
ghost use Rattle.std.specs.List.{prefix_len};
ghost use Rattle.words.specs.Words.{wordy, words_of, End, Started, First};
ghost use Rattle.words.specs.Numbers.{Numbered};

const COMMENT: u8 = b'#';

const NEWLINE: u8 = b'\n';

const SPACE: u8 = b' ';

// Whether a byte stands in a word.
fn is_wordy(byte: u8) -> bool
    ensures { result ≡ wordy byte }
{
    byte > SPACE && byte != COMMENT
}

// How many bytes stand before the end of the line.
fn line_len(text: &[u8]) -> usize
    ensures count { result ≡ prefix_len (λ b. not (b == NEWLINE)) text.now }
    ensures within { result ≤ length text.now }
{
    text.iter().take_while(|b| **b != NEWLINE).count()
}

// How many bytes of a word stand first.
fn word_len(text: &[u8]) -> usize
    ensures count { result ≡ prefix_len wordy text.now }
    ensures within { result ≤ length text.now }
{
    text.iter().take_while(|b| is_wordy(**b)).count()
}

// The text from its first word on, or its end.
fn from_word(text: &[u8]) -> &[u8]
    ensures end { End text.now result.now }
    ensures starts { Started result.now }
    ensures words { words_of text.now ≡ words_of result.now }
{
    let mut rest = text;
    // Blanks are asked for first, since a text may have many in a row.
    while let Some((first, others)) = rest.split_first() {
        if *first <= SPACE {
            rest = others;
        } else if *first == COMMENT {
            rest = others.split_at(line_len(others)).1;
        } else {
            return rest;
        }
    }
    rest
}

// The first word of a text, and the text after it.
pub fn split_word(text: &[u8]) -> Option<(&[u8], &[u8])>
    ensures { MatchOption result (words_of text.now ≡ []) (λ p. First text.now p.0.now p.1.now) }
{
    let start = from_word(text);
    let (word, rest) = start.split_at(word_len(start));
    if word.is_empty() {
        None
    } else {
        Some((word, rest))
    }
}

// The number that a word writes in decimal, if it is a byte.
pub fn number(word: &[u8]) -> Option<u8>
    ensures { Numbered word.now result }
{
    if word.is_empty() {
        return None;
    }
    let mut value: u8 = 0;
    for digit in word {
        if !digit.is_ascii_digit() {
            return None;
        }
        value = value.checked_mul(10)?.checked_add(*digit - b'0')?;
    }
    Some(value)
}
