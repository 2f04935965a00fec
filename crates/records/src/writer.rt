// The writer of order records.
ghost use Rattle.std.specs.Prelude.{◌≡◌, length};
ghost use Rattle.records.specs.Format.{image, body_of};
ghost use Rattle.records.specs.Writing.{Recorded};

use crate::order::{BAD_MARK, Order, WRONG_LENGTH};
use card::fault::Fault;

// Writes the order's body over the whole of a part of the buffer.
fn put_body(order: &Order<'_>, part: &mut [u8])
    requires { length part.old ≡ length (body_of (image order.now)) }
    ensures { part.new ≡ body_of (image order.now) }
{
    match order {
        Order::Commission { kind, lines } => {
            part[0] = *kind;
            part[1] = *lines;
        }
        Order::Patch { input, output } => {
            part[0] = *input;
            part[1] = *output;
        }
        Order::Hold { cell, position } => {
            part[0] = *cell;
            part[1] = *position;
        }
        Order::Drop { input } => part[0] = *input,
        Order::Release { cell } => part[0] = *cell,
        Order::RingOut => {}
        Order::Plan(body) => part.copy_from_slice(body),
        Order::Voice(body) => part.copy_from_slice(body),
    }
}

// Writes the order's record to the front of the buffer, and answers its length.
pub fn write(lines: u8, order: &Order<'_>, buffer: &mut [u8]) -> Result<usize, Fault>
    ensures { Recorded lines (image order.now) buffer.old buffer.new result }
{
    if lines == 1 || lines > 16 {
        return Err(WRONG_LENGTH);
    }
    let mark = order.mark();
    if !mark.stands(lines) {
        return Err(BAD_MARK);
    }
    let held = order.body_length();
    if held != mark.body_length(lines) {
        return Err(WRONG_LENGTH);
    }
    if buffer.len() < held + 2 {
        return Err(WRONG_LENGTH);
    }
    buffer[..2].copy_from_slice(&<[u8; 2]>::from(mark));
    put_body(order, &mut buffer[2..held + 2]);
    Ok(held + 2)
}
