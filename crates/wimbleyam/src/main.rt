// The record program: order records on standard input, answers on standard output, each as soon as its record is whole.
#![tactic(auto)]

use conversation::talk::Talk;
use std::io;
use std::io::{Read, Write};

// Reads what is there and answers it, until the input ends or the conversation is over. The turns are counted, since nothing says that an input ends.
fn main(rt: HostRuntime) -> io::Result<()> {
    let mut talk = Talk::begin();
    let mut answers = Vec::new(rt.alloc());
    let mut input = rt.stdin();
    let mut output = rt.stdout();
    let mut piece = [0u8; 4096];
    for _ in 0..u64::MAX {
        let count = input.read(&mut piece)?;
        if count == 0 {
            break;
        }
        talk.feed(&piece[0..count], &mut answers)?;
        output.write_all(answers.as_slice())?;
        output.flush()?;
        answers.clear();
        if talk.is_over() {
            return Ok(());
        }
    }
    talk.finish(&mut answers)?;
    output.write_all(answers.as_slice())?;
    output.flush()
}
