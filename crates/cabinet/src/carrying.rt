// Carries of payloads through the card.
ghost use Rattle.std.specs.Prelude.{◌≡◌, slice_index_or};
ghost use Rattle.cabinet.specs.Carrying.{Carried};
ghost use Rattle.cabinet.specs.States.{standing, Found};

use super::Cabinet;
use card::fault::{Cause, Fault, Layer};
use card::{Card, NONE};
use payload::Payload;

// What an output gets from this input, or silence where there is no such input.
fn sent<P: Payload + Copy>(given: &[P], input: u8) -> P
    ensures { result ≡ slice_index_or given.now input P.Payload.silent }
{
    given.get(input as usize).copied().unwrap_or(P::silence())
}

impl<C: Card> Cabinet<C> {
    // For each output the busy input that ends there where the cells now stand, or `NONE`.
    fn route(&self) -> Result<[u8; 16], Fault>
        ensures { Found (C.Card.meaning self.now.card) (standing (C.Card.meaning self.now.card) self.now.state) result }
    {
        let columns = self.card.columns();
        let mut table = [NONE; 16];
        for input in 0..self.card.lines() {
            if self.state.plan.output(input).is_some() {
                let place = self.card.place(self.standing_setting(), input, columns)?;
                table[place as usize] = input;
            }
        }
        Ok(table)
    }

    // Carries a payload from each busy input to where the card puts it, and silence to the other outputs.
    pub fn carry<P: Payload + Copy>(&self, given: &[P], out: &mut [P]) -> Result<(), Fault>
        ensures { Carried P.Payload.silent (C.Card.meaning self.now.card) (standing (C.Card.meaning self.now.card) self.now.state) given.now out.old out.new result }
    {
        let lines = self.card.lines();
        if given.len() != lines as usize || out.len() != lines as usize {
            return Err(Fault {
                cause: Cause::WrongLength,
                layer: Layer::Cabinet,
                place: 0,
            });
        }
        let route = self.route()?;
        for (output, slot) in out.iter_mut().enumerate() {
            *slot = sent(given, route[output]);
        }
        Ok(())
    }
}
