// What a cabinet can be told, and what it replies.
use payload::Frame;

// An order, or a carry of line numbers or of voice frames.
#[derive(Clone, Copy)]
pub enum Command<'a> {
    Plan(&'a [u8]),
    Patch { input: u8, output: u8 },
    Drop { input: u8 },
    Hold { cell: u8, position: u8 },
    Release { cell: u8 },
    RingOut,
    Voice(&'a [Frame]),
}

// What was done: how many cells moved; or what each output got, with silence past the last line, in arrays, since a cabinet
// uses no heap.
#[derive(Clone, Copy)]
pub enum Reply {
    Moved(u8),
    Numbers([u8; 16]),
    Frames([Frame; 16]),
}
