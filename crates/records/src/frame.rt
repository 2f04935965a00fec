// Voice frames as bytes: functions and no `From`, which a crate may not write for a type of another crate.
ghost use Rattle.std.specs.Prelude.{◌≡◌, ◌+◌, ◌≤◌, [], ◌∷◌, length, take, drop};
ghost use Rattle.payload.specs.declared.Frame.{Frame};
ghost use Rattle.records.specs.Frames.{Typed, Framed, Appended, frame_bytes, sample_bytes, wide};

use payload::{Frame, Payload};
use std::alloc::AllocError;

// The frame of eleven bytes. It has these bytes, and no other frame has.
pub fn decode(bytes: &[u8; 11]) -> Frame
    ensures typed { Typed result }
    ensures value { frame_bytes result ≡ bytes.now }
    ensures only { (f : Frame) → Typed f → frame_bytes f ≡ bytes.now → f ≡ result }
{
    let [a, b, level, c, d, e, f, g, h, i, j] = *bytes;
    let count = u16::from_be_bytes([a, b]);
    let first = i16::from_be_bytes([c, d]);
    let second = i16::from_be_bytes([e, f]);
    let third = i16::from_be_bytes([g, h]);
    let fourth = i16::from_be_bytes([i, j]);
    Frame {
        count,
        level,
        samples: [first, second, third, fourth],
    }
}

// The eleven bytes of a frame. No other frame has them.
pub fn encode(frame: Frame) -> [u8; 11]
    ensures typed { Typed frame }
    ensures value { result ≡ frame_bytes frame }
    ensures only { (f : Frame) → Typed f → frame_bytes f ≡ result → f ≡ frame }
{
    let [first, second, third, fourth] = frame.samples;
    let [a, b] = frame.count.to_be_bytes();
    let [c, d] = first.to_be_bytes();
    let [e, f] = second.to_be_bytes();
    let [g, h] = third.to_be_bytes();
    let [i, j] = fourth.to_be_bytes();
    [a, b, frame.level, c, d, e, f, g, h, i, j]
}

// The whole frames of a body, sixteen at most, and silence after them.
pub fn decode_all(body: &[u8]) -> [Frame; 16]
    ensures { Framed body.now result }
{
    let mut frames = [<Frame as Payload>::silence(); 16];
    let mut rest = body;
    // An index loop: over `iter_mut` the proof that a place left alone keeps its frame did not close.
    for i in 0..16 {
        if let Some((bytes, after)) = rest.split_first_chunk() {
            frames[i] = decode(bytes);
            rest = after;
        }
    }
    frames
}

// Appends the bytes of frames, or the front of them where there is no memory for more.
pub(crate) fn put_frames(frames: &[Frame], out: &mut Vec<u8>) -> Result<(), AllocError>
    ensures { Appended frames.now out.old.items out.new.items result }
{
    for frame in frames {
        let bytes = encode(*frame);
        out.extend_from_slice(&bytes)?;
    }
    Ok(())
}
