// Checks a sheet that stands as text on standard input, and writes the verdict in words.
#![tactic(auto)]

use anyhow::anyhow;
use sheet_text::phrases::{cause_words, misread_words, verdict_words};
use sheet_text::reading::parse;
use std::io::Read;

// A refusal is an answer; a text that is not in its form is an error.
fn main(rt: HostRuntime) -> anyhow::Result<()> {
    let mut text = Vec::new(rt.alloc());
    rt.stdin().read_to_end(&mut text)?;
    let request = parse(text.as_slice()).map_err(|misread| anyhow!(misread_words(misread)))?;
    match request.check() {
        Ok(verdict) => rt.println(verdict_words(verdict))?,
        Err(fault) => {
            let words = cause_words(fault.cause);
            let number = fault.number();
            let layer = fault.layer_number();
            let place = fault.place;
            println!(rt; "refused: {words} (number {number}, layer {layer}, place {place})")?;
        }
    }
    Ok(())
}
