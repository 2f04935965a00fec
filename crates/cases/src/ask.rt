// What a case asks for, and its answer.
ghost use Rattle.cases.specs.Names.{Named, ask_name};

use super::calls;
use super::line::Case;
use super::naming::{Name, named};
use super::orders::obey;
use super::show::{Answer, List};
use std::alloc::Global;
use std::io;

// What both programs are asked for.
#[derive(Clone, Copy)]
pub enum Ask {
    Settle,
    Place,
    Positions,
    Carry,
    Orders,
}

impl Name for Ask {
    ghost name_of = { ask_name };

    fn name(&self) -> &'static str {
        match self {
            Ask::Settle => "settle",
            Ask::Place => "place",
            Ask::Positions => "positions",
            Ask::Carry => "carry",
            Ask::Orders => "orders",
        }
    }
}

impl Ask {
    // What a line asks for.
    pub fn of(line: &str) -> Option<Ask>
        ensures { Named ask_name line.now result }
    {
        let all = [
            Ask::Settle,
            Ask::Place,
            Ask::Positions,
            Ask::Carry,
            Ask::Orders,
        ];
        named(&all, line)
    }

    // Prints the answer. No clause: the library says nothing of what is printed; the calls and the texts have their own.
    pub fn answer(self, rt: &impl Print, heap: Global, case: &Case<'_>) -> io::Result<()> {
        let name = case.card();
        match self {
            Ask::Settle => settle(rt, case),
            Ask::Place => {
                let place = calls::place(name, case.part(1), case.number(2, 0), case.number(2, 1));
                rt.print(Answer(place))
            }
            Ask::Positions => rt.print(Answer(calls::positions(name, case.number(1, 0)))),
            Ask::Carry => rt.print(Answer(calls::carry(
                name,
                case.number(1, 0),
                case.number(1, 1),
            ))),
            Ask::Orders => obey(rt, heap, case),
        }
    }
}

// Settles a plan under holds with a buffer of so many entries, all 9 before.
fn settle(rt: &impl Print, case: &Case<'_>) -> io::Result<()> {
    let size = (case.number(3, 0) as usize).min(80);
    let mut table = [9u8; 80];
    let setting = &mut table[..size];
    let done = calls::settle(case.card(), case.part(1), case.part(2), setting);
    rt.print(Answer(done.map(|()| List(setting))))
}
