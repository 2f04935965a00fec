// The answer to one order.
ghost use Rattle.std.specs.Prelude.{◌≡◌, IfOk, OnOk};
ghost use Rattle.records.specs.Format.{image};
ghost use Rattle.conversation.specs.Answering.{Acted, Commanded, Commissioned, Exchanged};

use crate::talk::Phase;
use cabinet::Cabinet;
use cabinet::command::{Command, Reply};
use card::Card;
use kinds::built::Built;
use kinds::plain::CardName;
use records::answer::{Answer, put, put_voice};
use records::frame::decode_all;
use records::order::Order;
use std::alloc::AllocError;

// Commissions a cabinet, if the kind is known with so many lines.
pub(crate) fn commission(name: CardName, out: &mut Vec<u8>) -> Result<Phase, AllocError>
    ensures { IfOk result (λ p. Commissioned name.kind name.lines out.old.items out.new.items p) }
{
    match name.build() {
        Ok(card) => {
            let cabinet = Cabinet::commission(card);
            put(
                &Answer::Done {
                    moved: 0,
                    setting: cabinet.standing_setting(),
                },
                out,
            )?;
            Ok(Phase::Serving(cabinet))
        }
        Err(fault) => {
            put(&Answer::from(fault), out)?;
            Ok(Phase::Over)
        }
    }
}

// Has the cabinet obey a command, and says its reply.
fn act(
    cabinet: &mut Cabinet<Built>,
    command: Command<'_>,
    out: &mut Vec<u8>,
) -> Result<(), AllocError>
    ensures { OnOk result (Acted cabinet.old command.entry out.old.items out.new.items cabinet.new) }
{
    let lines = cabinet.card().lines() as usize;
    match cabinet.obey(command) {
        Ok(Reply::Moved(moved)) => put(
            &Answer::Done {
                moved,
                setting: cabinet.standing_setting(),
            },
            out,
        ),
        Ok(Reply::Numbers(table)) => put(&Answer::RungOut(&table[0..lines]), out),
        Ok(Reply::Frames(table)) => put_voice(&table[0..lines], out),
        Err(fault) => put(&Answer::from(fault), out),
    }
}

// The command that an order gives. A commission gives none, and the frames of a voice order are yet to be decoded. A
// function and no `TryFrom`, which a crate may not write between two types of other crates.
fn command_of<'a>(order: Order<'a>) -> Option<Command<'a>>
    ensures { Commanded (image order.entry) result }
{
    match order {
        Order::Plan(pairs) => Some(Command::Plan(pairs)),
        Order::Patch { input, output } => Some(Command::Patch { input, output }),
        Order::Drop { input } => Some(Command::Drop { input }),
        Order::Hold { cell, position } => Some(Command::Hold { cell, position }),
        Order::Release { cell } => Some(Command::Release { cell }),
        Order::RingOut => Some(Command::RingOut),
        _ => None,
    }
}

// Has the cabinet do what an order says, and says its answer. A commission does not come here.
pub(crate) fn exchange(
    cabinet: &mut Cabinet<Built>,
    order: Order<'_>,
    out: &mut Vec<u8>,
) -> Result<(), AllocError>
    ensures { OnOk result (Exchanged cabinet.old (image order.entry) out.old.items out.new.items cabinet.new) }
{
    if let Order::Voice(body) = order {
        let lines = cabinet.card().lines() as usize;
        let frames = decode_all(body);
        return act(cabinet, Command::Voice(&frames[0..lines]), out);
    }
    match command_of(order) {
        Some(command) => act(cabinet, command, out),
        None => Ok(()),
    }
}
