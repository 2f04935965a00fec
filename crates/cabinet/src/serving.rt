// Any command to a cabinet, and whole runs of commands.
ghost use Rattle.std.specs.Prelude.{IfOk};
ghost use Rattle.cabinet.specs.Carrying.{CarriedOut};
ghost use Rattle.cabinet.specs.States.{standing};
ghost use Rattle.cabinet.specs.Serving.{numbers, Obeyed, Served};
ghost use Rattle.payload.specs.Silence.{quiet_number};

use super::Cabinet;
use super::command::{Command, Reply};
use card::Card;
use card::fault::Fault;
use payload::Payload;
use std::alloc::{AllocError, Global};

impl<C: Card> Cabinet<C> {
    // What each output gets when payloads are carried, with silence past the last line.
    fn carried<P: Payload + Copy>(&self, given: &[P]) -> Result<[P; 16], Fault>
        ensures { CarriedOut P.Payload.silent (C.Card.meaning self.now.card) (standing (C.Card.meaning self.now.card) self.now.state) given.now result }
    {
        let lines = self.card.lines() as usize;
        let mut table = [P::silence(); 16];
        self.carry(given, &mut table[..lines])?;
        Ok(table)
    }

    // Carries each input's own number.
    fn ring_out(&self) -> Result<[u8; 16], Fault>
        ensures { CarriedOut quiet_number (C.Card.meaning self.now.card) (standing (C.Card.meaning self.now.card) self.now.state) (numbers (C.Card.meaning self.now.card).lines) result }
    {
        let own = [0, 1, 2, 3, 4, 5, 6, 7, 8, 9, 10, 11, 12, 13, 14, 15];
        self.carried(&own[..self.card.lines() as usize])
    }

    // Does what a command says.
    pub fn obey(&mut self, command: Command<'_>) -> Result<Reply, Fault>
        ensures { Obeyed C.Card.meaning self.old command.entry result self.new }
    {
        match command {
            Command::Plan(pairs) => Ok(Reply::Moved(self.plan(pairs)?)),
            Command::Patch { input, output } => Ok(Reply::Moved(self.patch(input, output)?)),
            Command::Drop { input } => Ok(Reply::Moved(self.drop(input)?)),
            Command::Hold { cell, position } => Ok(Reply::Moved(self.hold(cell, position)?)),
            Command::Release { cell } => Ok(Reply::Moved(self.release(cell)?)),
            Command::RingOut => Ok(Reply::Numbers(self.ring_out()?)),
            Command::Voice(frames) => Ok(Reply::Frames(self.carried(frames)?)),
        }
    }
}

// Commissions a cabinet on the card, obeys the commands in turn, and answers what each was replied.
pub fn serve<C: Card + Drop>(
    heap: Global,
    card: C,
    commands: &[Command<'_>],
) -> Result<Vec<Result<Reply, Fault>>, AllocError>
    ensures { IfOk result (λ replies. Served (C.Card.meaning card) commands.now replies.items) }
{
    let mut replies = Vec::new(heap);
    let mut cabinet = Cabinet::commission(card);
    for command in commands {
        let reply = cabinet.obey(*command);
        replies.push(reply)?;
    }
    Ok(replies)
}
