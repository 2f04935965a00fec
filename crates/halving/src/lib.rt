// Halving cards: a first column of cells, an upper and a lower half card, and on a Beneš card a last column.
#![tactic(auto)]

pub mod cards;
pub mod families;
mod forcing;
mod fronts;
mod halves;
mod levels;
mod lone;
pub mod outer;
mod places;
mod routes;
mod settling;
