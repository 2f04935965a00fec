// Records: orders, answers and voice frames as bytes.
#![tactic(auto)]

pub mod answer;
pub mod frame;
pub mod order;
pub mod reader;
pub mod writer;
