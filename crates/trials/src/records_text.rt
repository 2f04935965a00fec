// Cases of records: whole streams, and single calls of the reader and the writer.
use crate::hex::{After, Hex, bytes};
use cases::line::{Case, at};
use cases::orders::Word;
use cases::show::{Answer, List, Refusal};
use conversation::hearing::converse;
use records::order::Order;
use records::reader::read;
use records::writer::write;
use std::alloc::Global;
use std::{fmt, io};

// A whole stream of records, and all that is said to it.
pub(crate) fn stream_case(rt: &impl Print, heap: Global, case: &Case<'_>) -> io::Result<()> {
    let input = bytes(heap, case.text)?;
    let said = converse(heap, input.as_slice())?;
    rt.print(Hex(said.as_slice()))
}

// An order as text: its word, and its numbers.
#[derive(Drop)]
struct Text<'a>(Order<'a>);

impl fmt::Display for Text<'_> {
    fn fmt<W: fmt::Write>(&self, f: &mut fmt::Formatter<W>) -> fmt::Result {
        match &self.0 {
            Order::Commission { kind, lines } => write!(f, "commission {kind} {lines}"),
            Order::Plan(body) => write!(f, "plan {}", List(body)),
            Order::Patch { input, output } => write!(f, "patch {input} {output}"),
            Order::Drop { input } => write!(f, "drop {input}"),
            Order::Hold { cell, position } => write!(f, "hold {cell} {position}"),
            Order::Release { cell } => write!(f, "release {cell}"),
            Order::RingOut => f.write_str("ring"),
            Order::Voice(body) => write!(f, "voice {}", List(body)),
        }
    }
}

// The second part of a case as text, without the blanks before it.
fn words<'a>(case: &Case<'a>) -> &'a str {
    case.text.split('/').nth(1).unwrap_or("").trim_start()
}

// Reads one record at so many lines: the order, and the bytes after it.
pub(crate) fn read_case(rt: &impl Print, heap: Global, case: &Case<'_>) -> io::Result<()> {
    let input = bytes(heap, words(case))?;
    match read(case.number(0, 0), input.as_slice()) {
        Ok(Some((order, rest))) => { print!(rt; "{}{}", Text(order), After(rest)) }
        Ok(None) => print!(rt; "end"),
        Err(fault) => rt.print(Refusal(fault)),
    }
}

// The order of a text and its numbers. Not made from the command of the same text: an order may be a commission or carry voice.
fn order<'a>(text: &str, n: &'a [u8]) -> Order<'a> {
    match Word::of(text) {
        Some(Word::Commission) => Order::Commission {
            kind: at(n, 0),
            lines: at(n, 1),
        },
        Some(Word::Plan) => Order::Plan(n),
        Some(Word::Patch) => Order::Patch {
            input: at(n, 0),
            output: at(n, 1),
        },
        Some(Word::Drop) => Order::Drop { input: at(n, 0) },
        Some(Word::Hold) => Order::Hold {
            cell: at(n, 0),
            position: at(n, 1),
        },
        Some(Word::Release) => Order::Release { cell: at(n, 0) },
        Some(Word::Voice) => Order::Voice(n),
        None => Order::RingOut,
    }
}

// Writes a record at so many lines into a buffer of so many bytes, all 9 before: the length or the refusal, and the buffer after.
pub(crate) fn write_case(rt: &impl Print, case: &Case<'_>) -> io::Result<()> {
    let size = case.number(2, 0) as usize;
    let mut table = [9u8; 255];
    let buffer = &mut table[..size];
    let order = order(words(case), case.part(1));
    let length = write(case.number(0, 0), &order, buffer);
    print!(rt; "{}{}", Answer(length), After(buffer))
}
