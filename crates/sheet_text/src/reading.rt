// The reader of requests: `kind K lines N plan .. holds .. sheet ..`, with blanks and comments between.
ghost use Rattle.std.specs.Prelude.{◌≡◌, Some, ◌∷◌, MatchOption};
ghost use Rattle.sheets.specs.Sole.{Sole};
ghost use Rattle.words.specs.Words.{words_of};
ghost use Rattle.sheet_text.specs.Lists.{values, Entering, EntryOf, Listed, Unentered, Unnamed, Unvalued, Valued};
ghost use Rattle.sheet_text.specs.Phrases.{misread_words};
ghost use Rattle.sheet_text.specs.Requests.{ListRead, Reading, outcome};

use super::numbers::Numbers;
use super::phrases::misread_words;
use super::request::Request;
use arrayvec::ArrayVec;
use card::NONE;
use std::error::Error;
use std::fmt;
use words::{number, split_word};

// Which part of a request is missing or not in its form.
#[derive(Clone, Copy, PartialEq, Eq, Debug, Drop)]
pub enum Misread {
    Kind,
    Lines,
    Plan,
    Holds,
    Sheet,
    End,
}

// What should stand there.
impl fmt::Display for Misread {
    ghost output = { λ m. Some (misread_words m) };

    fn fmt<W: fmt::Write>(&self, f: &mut fmt::Formatter<W>) -> fmt::Result {
        f.write_str(misread_words(*self))
    }
}

impl Error for Misread {}

// The number that a word of a list writes: `-` for none, else in decimal.
fn entry(word: &[u8]) -> Option<u8>
    ensures { EntryOf word.now result }
{
    match word {
        [b'-'] => Some(NONE),
        _ => number(word),
    }
}

// The text after this name, if the name comes first.
fn named<'a>(text: &'a [u8], name: &[u8]) -> Option<&'a [u8]>
    ensures { MatchOption result (Unnamed (words_of text.now) name.now) (λ rest. words_of text.now ≡ name.now ∷ words_of rest.now) }
{
    let (word, rest) = split_word(text)?;
    if word == name { Some(rest) } else { None }
}

// The number after this name, and the text after it.
fn keyed<'a>(text: &'a [u8], name: &[u8]) -> Option<(u8, &'a [u8])>
    ensures { MatchOption result (Unvalued (words_of text.now) name.now) (λ p. Valued (words_of text.now) name.now p.0 (words_of p.1.now)) }
{
    let (word, rest) = split_word(named(text, name)?)?;
    Some((number(word)?, rest))
}

// The number that the first word writes in a list, and the text after it.
fn entered(text: &[u8]) -> Option<(u8, &[u8])>
    ensures { MatchOption result (Unentered (words_of text.now)) (λ p. Entering (words_of text.now) p.0 (words_of p.1.now)) }
{
    let (word, rest) = split_word(text)?;
    Some((entry(word)?, rest))
}

// The numbers up to the first word that writes none, and the text after them.
fn listed(text: &[u8]) -> (Numbers, &[u8])
    ensures { Listed (words_of text.now) (values result.0) (words_of result.1.now) }
{
    let mut numbers = ArrayVec::<u8, 64>::new();
    let mut rest = text;
    while !numbers.is_full() {
        let Some((value, after)) = entered(rest) else {
            break;
        };
        numbers.push(value);
        rest = after;
    }
    (Numbers::of(&numbers), rest)
}

// The list after this name, and the text after it.
fn list_after<'a>(text: &'a [u8], name: &[u8]) -> Option<(Numbers, &'a [u8])>
    ensures { MatchOption result (Unnamed (words_of text.now) name.now) (λ p. ListRead (words_of text.now) name.now (values p.0) (words_of p.1.now)) }
{
    let entries = named(text, name)?;
    Some(listed(entries))
}

// Reads a request.
pub fn parse(text: &[u8]) -> Result<Request, Misread>
    ensures { Sole (Reading (words_of text.now)) (outcome result) }
{
    let (kind, text) = keyed(text, b"kind").ok_or(Misread::Kind)?;
    let (lines, text) = keyed(text, b"lines").ok_or(Misread::Lines)?;
    let (plan, text) = list_after(text, b"plan").ok_or(Misread::Plan)?;
    let (holds, text) = list_after(text, b"holds").ok_or(Misread::Holds)?;
    let (sheet, text) = list_after(text, b"sheet").ok_or(Misread::Sheet)?;
    match split_word(text) {
        Some(_) => Err(Misread::End),
        None => Ok(Request {
            kind,
            lines,
            plan,
            holds,
            sheet,
        }),
    }
}
