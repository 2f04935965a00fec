// Runs cases from standard input, one a line, and writes the answer to each on a line.
#![tactic(auto)]

ghost use Rattle.trials.specs.Trials.{trial_name};

mod cabinets;
mod hex;
mod records_text;

use cases::ask::Ask;
use cases::line::Case;
use cases::naming::{Name, named};
use cases::show::Answer;
use std::alloc::Global;
use std::io;
use std::io::{BufRead, BufReader};

// What the vectors ask for besides.
#[derive(Clone, Copy)]
enum Trial {
    Cabinet,
    Check,
    Read,
    Write,
    Stream,
}

impl Name for Trial {
    ghost name_of = { trial_name };

    fn name(&self) -> &'static str {
        match self {
            Trial::Cabinet => "cabinet",
            Trial::Check => "check",
            Trial::Read => "read",
            Trial::Write => "write",
            Trial::Stream => "stream",
        }
    }
}

// Answers a case. A line that asks for nothing else has orders.
fn answer(rt: &impl Print, heap: Global, case: &Case<'_>) -> io::Result<()> {
    let all = [
        Trial::Cabinet,
        Trial::Check,
        Trial::Read,
        Trial::Write,
        Trial::Stream,
    ];
    match named(&all, case.text) {
        Some(Trial::Cabinet) => rt.print(Answer(cabinets::check(case))),
        Some(Trial::Check) => {
            let number = codes::check(case.card(), case.part(1), case.part(2), case.part(3));
            rt.print(number)
        }
        Some(Trial::Read) => records_text::read_case(rt, heap, case),
        Some(Trial::Write) => records_text::write_case(rt, case),
        Some(Trial::Stream) => records_text::stream_case(rt, heap, case),
        None => Ask::of(case.text)
            .unwrap_or(Ask::Orders)
            .answer(rt, heap, case),
    }
}

fn main(rt: HostRuntime) -> io::Result<()> {
    let heap = rt.alloc();
    for line in BufReader::new(heap, rt.stdin())?.lines(heap) {
        let line = line?;
        answer(&rt, heap, &Case::read(heap, line.as_str())?)?;
        println!(rt; "")?;
    }
    Ok(())
}
