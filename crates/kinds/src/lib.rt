// The kinds of cards: from a kind byte and a line count to a built card.
#![tactic(auto)]

pub mod built;
pub mod plain;
