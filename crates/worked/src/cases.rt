// What a case says.
use kinds::plain::CardName;

// A cell that is held at a position.
#[derive(Clone, Copy, PartialEq, Eq, Debug)]
pub struct Hold {
    pub cell: u8,
    pub position: u8,
}

// On a card, pairs with an output or 255 for each input, holds, and the first setting that fits them, if one does.
#[derive(Clone, Copy)]
pub struct Case {
    pub card: CardName,
    pub pairs: &'static [u8],
    pub holds: &'static [Hold],
    pub setting: Option<&'static [u8]>,
}
