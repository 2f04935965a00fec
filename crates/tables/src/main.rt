// Runs a table of cases from standard input, and writes one line of answers for each.
#![tactic(auto)]

use cases::ask::Ask;
use cases::line::Case;
use std::io;
use std::io::{BufRead, BufReader};

fn main(rt: HostRuntime) -> io::Result<()> {
    let heap = rt.alloc();
    for line in BufReader::new(heap, rt.stdin())?.lines(heap) {
        let line = line?;
        let case = Case::read(heap, line.as_str())?;
        if let Some(ask) = Ask::of(case.text) {
            ask.answer(&rt, heap, &case)?;
        }
        println!(rt; "")?;
    }
    Ok(())
}
