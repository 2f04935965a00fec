// The text form of a check: a request as text, and its verdict in words.
#![tactic(auto)]

pub mod numbers;
pub mod phrases;
pub mod reading;
pub mod request;
