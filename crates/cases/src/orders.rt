// Orders to a cabinet as text, and what each is replied.
ghost use Rattle.std.specs.Prelude.{Some};
ghost use Rattle.cases.specs.Names.{Named, word_name};
ghost use Rattle.cases.specs.Shown.{reply_text};

use super::line::{Case, at};
use super::naming::{Name, named};
use super::show::{Answer, List, Refusal};
use cabinet::command::{Command, Reply};
use cabinet::serving::serve;
use std::alloc::Global;
use std::{fmt, io};

// The word of an order.
#[derive(Clone, Copy)]
pub enum Word {
    Commission,
    Plan,
    Patch,
    Drop,
    Hold,
    Release,
    Voice,
}

impl Name for Word {
    ghost name_of = { word_name };

    fn name(&self) -> &'static str {
        match self {
            Word::Commission => "commission",
            Word::Plan => "plan",
            Word::Patch => "patch",
            Word::Drop => "drop",
            Word::Hold => "hold",
            Word::Release => "release",
            Word::Voice => "voice",
        }
    }
}

impl Word {
    // The word that a text begins with.
    pub fn of(text: &str) -> Option<Word>
        ensures { Named word_name text.now result }
    {
        let all = [
            Word::Commission,
            Word::Plan,
            Word::Patch,
            Word::Drop,
            Word::Hold,
            Word::Release,
            Word::Voice,
        ];
        named(&all, text)
    }
}

// The command of a text and its numbers; any text but the words of orders rings out.
fn command<'a>(text: &str, n: &'a [u8]) -> Command<'a> {
    match Word::of(text) {
        Some(Word::Plan) => Command::Plan(n),
        Some(Word::Patch) => Command::Patch {
            input: at(n, 0),
            output: at(n, 1),
        },
        Some(Word::Drop) => Command::Drop { input: at(n, 0) },
        Some(Word::Hold) => Command::Hold {
            cell: at(n, 0),
            position: at(n, 1),
        },
        Some(Word::Release) => Command::Release { cell: at(n, 0) },
        Some(Word::Commission | Word::Voice) | None => Command::RingOut,
    }
}

// What a cabinet of so many lines replied.
#[derive(Drop)]
struct Said {
    lines: u8,
    reply: Reply,
}

impl fmt::Display for Said {
    ghost output = { λ s. Some (reply_text s.lines s.reply) };

    fn fmt<W: fmt::Write>(&self, f: &mut fmt::Formatter<W>) -> fmt::Result {
        match &self.reply {
            Reply::Moved(moved) => write!(f, "moved {moved}"),
            Reply::Numbers(table) => {
                let lines = (self.lines as usize).min(16);
                let numbers = List(&table[..lines]);
                write!(f, "rang {numbers}")
            }
            Reply::Frames(_) => Ok(()),
        }
    }
}

// A fresh cabinet obeys the orders of a case, and the replies are printed.
pub(crate) fn obey(rt: &impl Print, heap: Global, case: &Case<'_>) -> io::Result<()> {
    let lines = case.card().lines;
    let card = match case.card().build() {
        Ok(card) => card,
        Err(fault) => return rt.print(Refusal(fault)),
    };
    let mut commands = Vec::new(heap);
    for (i, words) in case.text.split('/').enumerate().skip(1) {
        commands.push(command(words.trim_start(), case.part(i)))?;
    }
    let replies = serve(heap, card, commands.as_slice())?;
    for (i, reply) in replies.iter().enumerate() {
        if i > 0 {
            print!(rt; " / ")?;
        }
        rt.print(Answer(reply.map(|reply| Said { lines, reply })))?;
    }
    Ok(())
}
