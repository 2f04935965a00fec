// A conversation in records: orders in as bytes, answers out as bytes, and one cabinet between.
#![tactic(auto)]

mod answering;
pub mod hearing;
pub mod talk;
