//! The forms of a tally sheet: what a line's word and items ask for, or why they ask for nothing.
#![tactic(auto)]

mod fault;
mod items;
mod judging;
mod numbers;
mod order;
mod word;

pub use fault::{FormFault, Layer};
pub use judging::judge;
pub use numbers::Numbers;
pub use order::Order;
