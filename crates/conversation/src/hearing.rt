// A conversation, heard in pieces of any length.
ghost use Rattle.std.specs.Prelude.{◌≡◌, [], ◌∷◌, IfOk, OnOk, OnErr};
ghost use Rattle.records.specs.Format.{image};
ghost use Rattle.conversation.specs.Answering.{Responded, phase_lines, over_phase};
ghost use Rattle.conversation.specs.Talking.{Heard, Hears, Finishes, Ended};

use crate::answering::{commission, exchange};
use crate::talk::{Phase, Talk};
use arrayvec::ArrayVec;
use card::Card;
use card::fault::Cause;
use kinds::plain::CardName;
use records::answer::{Answer, put};
use records::order::Order;
use records::reader::read;
use std::alloc::{AllocError, Global};

// The line count that records are read at: none before a card is commissioned.
fn lines_at(phase: &Phase) -> u8
    ensures { result ≡ phase_lines phase.now }
{
    match phase {
        Phase::Serving(cabinet) => cabinet.card().lines(),
        _ => 0,
    }
}

// Answers an order in a phase, and goes on to the next.
fn respond(phase: Phase, order: Order<'_>, out: &mut Vec<u8>) -> Result<Phase, AllocError>
    ensures { IfOk result (λ next. Responded phase (image order.entry) out.old.items out.new.items next) }
{
    match phase {
        Phase::Waiting => match order {
            Order::Commission { kind, lines } => commission(CardName { kind, lines }, out),
            _ => Ok(Phase::Over),
        },
        Phase::Serving(mut cabinet) => {
            exchange(&mut cabinet, order, out)?;
            Ok(Phase::Serving(cabinet))
        }
        Phase::Over => Ok(Phase::Over),
    }
}

impl Talk {
    // A conversation in which nothing has been heard.
    pub fn begin() -> Talk
        ensures { Heard [] [] result }
    {
        Talk {
            phase: Phase::Waiting,
            pending: ArrayVec::new(),
        }
    }

    // Hears one byte, and says the answer if a record ends with it. Where there is no memory for the answer, the byte is not held.
    pub fn hear(&mut self, byte: u8, out: &mut Vec<u8>) -> Result<(), AllocError>
        ensures heard { OnOk result (Hears (byte ∷ []) out.old.items self.old out.new.items self.new) }
        ensures held { OnErr result (self.new.pending.items ≡ self.old.pending.items) }
    {
        if self.is_over() {
            return Ok(());
        }
        self.pending.push(byte);
        match read(lines_at(&self.phase), self.pending.as_slice()) {
            Ok(Some((order, _))) => {
                let phase = std::mem::replace(&mut self.phase, Phase::Over);
                match respond(phase, order, out) {
                    Ok(next) => {
                        self.pending.clear();
                        self.phase = next;
                    }
                    Err(error) => {
                        self.pending.pop();
                        return Err(error);
                    }
                }
            }
            Ok(None) => {}
            Err(fault) => {
                if fault.cause != Cause::CutShort {
                    if let Err(error) = put(&Answer::from(fault), out) {
                        self.pending.pop();
                        return Err(error);
                    }
                    self.pending.clear();
                    self.phase = Phase::Over;
                }
            }
        }
        Ok(())
    }

    // Hears a piece of any length, and says the answers to the records that end in it.
    pub fn feed(&mut self, piece: &[u8], out: &mut Vec<u8>) -> Result<(), AllocError>
        ensures { OnOk result (Hears piece.now out.old.items self.old out.new.items self.new) }
    {
        for byte in piece {
            self.hear(*byte, out)?;
        }
        Ok(())
    }

    // Whether the conversation is over: nothing more is read or answered.
    pub fn is_over(&self) -> bool
        ensures { result ≡ over_phase self.now.phase }
    {
        matches!(self.phase, Phase::Over)
    }

    // The end of input: says that a record is cut short, if one is.
    pub fn finish(&self, out: &mut Vec<u8>) -> Result<(), AllocError>
        ensures { OnOk result (Finishes out.old.items self.now out.new.items) }
    {
        if self.pending.is_empty() {
            return Ok(());
        }
        match read(lines_at(&self.phase), self.pending.as_slice()) {
            Ok(_) => Ok(()),
            Err(fault) => put(&Answer::from(fault), out),
        }
    }
}

// All that is said to a whole input, from its first byte to its end.
pub fn converse(heap: Global, input: &[u8]) -> Result<Vec<u8>, AllocError>
    ensures { IfOk result (λ said. Ended input.now said.items) }
{
    let mut talk = Talk::begin();
    let mut said = Vec::new(heap);
    talk.feed(input, &mut said)?;
    talk.finish(&mut said)?;
    Ok(said)
}
