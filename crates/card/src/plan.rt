// A plan: for each input its output, or idle.
ghost use Rattle.std.specs.Prelude.{◌≡◌, Ok, Err};
ghost use Rattle.card.specs.Plans.{paired, Output, PlanLaw, Found, Idle, NotIdle, Filled, Patched, Dropped};

use crate::NONE;
use crate::fault::{Cause, Fault, Layer};

// A plan of 2 to 16 lines. The table has an output for each line, or `NONE`; what stands past the last line means nothing. An
// array beside its count, since a plan uses no heap and is copied by value.
#[derive(Clone, Copy)]
pub struct Plan {
    lines: u8,
    outputs: [u8; 16],
    ghost lawful: { ∥ PlanLaw lines outputs ∥₁ },
}

impl Plan {
    // A plan with every line idle.
    pub fn idle(lines: u8) -> Result<Plan, Fault>
        ensures { elim result [ Ok p ↦ Idle lines p.lines p.outputs | Err e ↦ NotIdle lines e ] }
    {
        if lines < 2 || lines > 16 {
            return Err(Fault {
                cause: Cause::WrongLength,
                layer: Layer::Cabinet,
                place: 0,
            });
        }
        Ok(Plan {
            lines,
            outputs: [NONE; 16],
        })
    }

    // How many lines the plan has.
    pub fn lines(&self) -> u8
        ensures { result ≡ self.now.lines }
    {
        self.lines
    }

    // The table of outputs.
    pub fn outputs(&self) -> [u8; 16]
        ensures { result ≡ self.now.outputs }
    {
        self.outputs
    }

    // The output of an input, if it has one.
    pub fn output(&self, input: u8) -> Option<u8>
        ensures { Output (paired self.now.lines self.now.outputs) input result }
    {
        let output = *self.outputs[..self.lines as usize].get(input as usize)?;
        (output != NONE).then_some(output)
    }

    // Writes the plan whole, from an output or `NONE` for each input.
    pub fn fill(&mut self, pairs: &[u8]) -> Result<(), Fault>
        ensures { Filled pairs.now (paired self.old.lines self.old.outputs) (paired self.new.lines self.new.outputs) result }
    {
        let lines = pairs.len();
        if lines < 2 || lines > 16 {
            return Err(Fault {
                cause: Cause::WrongLength,
                layer: Layer::Cabinet,
                place: 0,
            });
        }
        for (i, &output) in pairs.iter().enumerate() {
            if output != NONE {
                if output as usize >= lines {
                    return Err(Fault {
                        cause: Cause::NoOutput,
                        layer: Layer::Cabinet,
                        place: i as u8,
                    });
                }
                if pairs[..i].contains(&output) {
                    return Err(Fault {
                        cause: Cause::OutputBusy,
                        layer: Layer::Cabinet,
                        place: i as u8,
                    });
                }
            }
        }
        let mut outputs = [NONE; 16];
        outputs[..lines].copy_from_slice(pairs);
        *self = Plan {
            lines: lines as u8,
            outputs,
        };
        Ok(())
    }

    // Whether an input has this output.
    fn taken(&self, output: u8) -> bool
        ensures { Found self.now.lines (paired self.now.lines self.now.outputs) output result }
    {
        self.outputs[..self.lines as usize].contains(&output)
    }

    // Puts an idle input through to an idle output.
    pub fn patch(&mut self, input: u8, output: u8) -> Result<(), Fault>
        ensures pairs { Patched self.old.lines (paired self.old.lines self.old.outputs) (paired self.new.lines self.new.outputs) input output result }
        ensures lines { self.new.lines ≡ self.old.lines }
    {
        if input >= self.lines {
            return Err(Fault {
                cause: Cause::NoInput,
                layer: Layer::Cabinet,
                place: input,
            });
        }
        if output >= self.lines {
            return Err(Fault {
                cause: Cause::NoOutput,
                layer: Layer::Cabinet,
                place: input,
            });
        }
        if self.output(input).is_some() {
            return Err(Fault {
                cause: Cause::InputBusy,
                layer: Layer::Cabinet,
                place: input,
            });
        }
        if self.taken(output) {
            return Err(Fault {
                cause: Cause::OutputBusy,
                layer: Layer::Cabinet,
                place: input,
            });
        }
        self.outputs[input as usize] = output;
        Ok(())
    }

    // Makes a busy input idle.
    pub fn drop(&mut self, input: u8) -> Result<(), Fault>
        ensures pairs { Dropped self.old.lines (paired self.old.lines self.old.outputs) (paired self.new.lines self.new.outputs) input result }
        ensures lines { self.new.lines ≡ self.old.lines }
    {
        if input >= self.lines {
            return Err(Fault {
                cause: Cause::NoInput,
                layer: Layer::Cabinet,
                place: input,
            });
        }
        if self.output(input).is_none() {
            return Err(Fault {
                cause: Cause::InputIdle,
                layer: Layer::Cabinet,
                place: input,
            });
        }
        self.outputs[input as usize] = NONE;
        Ok(())
    }
}
