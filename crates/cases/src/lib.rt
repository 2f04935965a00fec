// What the test programs `tables` and `trials` share: cases as lines of text, the calls on a card that they ask for,
// and answers as text. What only prints promises no more than that it is safe.
#![tactic(auto)]

pub mod ask;
pub mod calls;
pub mod line;
pub mod naming;
pub mod orders;
pub mod show;
