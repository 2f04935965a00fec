// What lines carry: line numbers and voice frames.
#![tactic(auto)]

ghost use Rattle.std.specs.Prelude.{◌≡◌};
ghost use Rattle.payload.specs.Silence.{quiet_number, quiet_frame};

// A kind of payload, which names the value that stands for silence.
pub trait Payload: Sized {
    ghost silent: { Self };

    fn silence() -> Self
        ensures { result ≡ silent };
}

// A line's number; 255 is silence.
impl Payload for u8 {
    ghost silent = { quiet_number };

    fn silence() -> u8 {
        u8::MAX
    }
}

// A voice frame: a count, a level and four samples.
#[derive(Clone, Copy, PartialEq, Eq, Debug)]
pub struct Frame {
    pub count: u16,
    pub level: u8,
    pub samples: [i16; 4],
}

// A frame with every field 0 is silence.
impl Payload for Frame {
    ghost silent = { quiet_frame };

    fn silence() -> Frame {
        Frame {
            count: 0,
            level: 0,
            samples: [0; 4],
        }
    }
}
