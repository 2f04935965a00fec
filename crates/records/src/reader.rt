// The reader of order records.
ghost use Rattle.std.specs.Prelude.{◌≡◌, ◌≤◌, length};
ghost use Rattle.records.specs.Format.{table, image, of_body};
ghost use Rattle.records.specs.Reading.{Answered, reading_of};

use crate::order::{BAD_MARK, Mark, Order, WRONG_LENGTH};
use card::fault::{Cause, Fault, Layer};

// The order of a mark and its body.
fn order_from<'a>(mark: Mark, body: &'a [u8]) -> Order<'a>
    requires { (table mark).size 0 ≤ length body.now }
    ensures { image result ≡ of_body mark body.now }
{
    match mark {
        Mark::Cm => Order::Commission {
            kind: body[0],
            lines: body[1],
        },
        Mark::Pl => Order::Plan(body),
        Mark::Pt => Order::Patch {
            input: body[0],
            output: body[1],
        },
        Mark::Dr => Order::Drop { input: body[0] },
        Mark::Ho => Order::Hold {
            cell: body[0],
            position: body[1],
        },
        Mark::Re => Order::Release { cell: body[0] },
        Mark::Ro => Order::RingOut,
        Mark::Vf => Order::Voice(body),
    }
}

// The order at the front of the bytes and the bytes after it, or `None` at the end.
pub fn read(lines: u8, bytes: &[u8]) -> Result<Option<(Order<'_>, &[u8])>, Fault>
    ensures { Answered lines bytes.now (reading_of result) }
{
    if lines == 1 || lines > 16 {
        return Err(WRONG_LENGTH);
    }
    if bytes.is_empty() {
        return Ok(None);
    }
    let Some((letters, tail)) = bytes.split_first_chunk::<2>() else {
        return Err(Fault {
            cause: Cause::CutShort,
            layer: Layer::Record,
            place: 0,
        });
    };
    let mark = Mark::try_from(*letters)?;
    if !mark.stands(lines) {
        return Err(BAD_MARK);
    }
    let Some((body, rest)) = tail.split_at_checked(mark.body_length(lines)) else {
        return Err(Fault {
            cause: Cause::CutShort,
            layer: Layer::Record,
            place: tail.len() as u8,
        });
    };
    Ok(Some((order_from(mark, body), rest)))
}
