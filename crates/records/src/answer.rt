// The answers of a cabinet, as bytes.
ghost use Rattle.std.specs.Prelude.{◌≡◌, ◌+◌, ◌≤◌, true, ◌++◌, length, is_ok, if◌then◌else◌, vec_len, vec_capacity};
ghost use Rattle.records.specs.declared.answer.Answer.TheVariants.{Refused};
ghost use Rattle.records.specs.Answering.{answer_bytes, voice_bytes};

use crate::frame::put_frames;
use card::fault::Fault;
use payload::Frame;
use std::alloc::AllocError;

// What an order is answered: the moved byte and the setting, a position for each cell; a byte for each line after a ring-out; or a refusal.
#[derive(Clone, Copy)]
pub enum Answer<'a> {
    Done { moved: u8, setting: &'a [u8] },
    RungOut(&'a [u8]),
    Refused(Fault),
}

// The answer that a refusal is.
impl From<Fault> for Answer<'_> {
    ghost from_gives = { λ f a. a ≡ Refused f };

    fn from(fault: Fault) -> Self {
        Answer::Refused(fault)
    }
}

// Appends a head and a tail, both or neither.
fn append(head: &[u8], tail: &[u8], out: &mut Vec<u8>) -> Result<(), AllocError>
    ensures items { out.new.items ≡ (if is_ok result then out.old.items ++ (head.now ++ tail.now) else out.old.items) }
    ensures succeeds { vec_len out.old + length (head.now ++ tail.now) ≤ vec_capacity out.old → is_ok result ≡ true }
    ensures capacity { vec_capacity out.old ≤ vec_capacity out.new }
{
    let start = out.len();
    out.extend_from_slice(head)?;
    if let Err(error) = out.extend_from_slice(tail) {
        out.truncate(start);
        return Err(error);
    }
    Ok(())
}

// Appends the bytes of an answer, all of them or none. With room enough it does not fail.
pub fn put(answer: &Answer<'_>, out: &mut Vec<u8>) -> Result<(), AllocError>
    ensures items { out.new.items ≡ (if is_ok result then out.old.items ++ answer_bytes answer.now else out.old.items) }
    ensures succeeds { vec_len out.old + length (answer_bytes answer.now) ≤ vec_capacity out.old → is_ok result ≡ true }
    ensures capacity { vec_capacity out.old ≤ vec_capacity out.new }
{
    match answer {
        Answer::Done { moved, setting } => append(&[b'O', b'K', *moved], setting, out),
        Answer::RungOut(bytes) => append(b"RA", bytes, out),
        Answer::Refused(fault) => append(
            b"NO",
            &[fault.number(), fault.layer_number(), fault.place],
            out,
        ),
    }
}

// Appends the bytes of an answer to a voice order, all of them or none. Not by `append`: frames are no slice of bytes.
pub fn put_voice(frames: &[Frame], out: &mut Vec<u8>) -> Result<(), AllocError>
    ensures { out.new.items ≡ (if is_ok result then out.old.items ++ voice_bytes frames.now else out.old.items) }
{
    let start = out.len();
    out.extend_from_slice(b"VA")?;
    if let Err(error) = put_frames(frames, out) {
        out.truncate(start);
        return Err(error);
    }
    Ok(())
}
