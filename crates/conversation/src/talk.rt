// Where a conversation stands between two bytes.
ghost use Rattle.std.specs.Prelude.{◌<◌};
ghost use Rattle.arrayvec.specs.ArrayVec.{array_vec_len};

use arrayvec::ArrayVec;
use cabinet::Cabinet;
use kinds::built::Built;

// No card yet; a cabinet under orders; or over, after which nothing is read or answered.
#[derive(Drop)]
pub enum Phase {
    Waiting,
    Serving(Cabinet<Built>),
    Over,
}

// A conversation: its phase, and the bytes of a record that is not whole yet.
#[derive(Drop)]
pub struct Talk {
    pub(crate) phase: Phase,
    pub(crate) pending: ArrayVec<u8, 178>,
    ghost room: { array_vec_len pending < 178 },
}
