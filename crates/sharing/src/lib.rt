//! Shamir's sharing over any kind of number: shares, weights, recombination and rebuilding.
#![tactic(auto)]

mod masks;
mod rebuilding;
mod refusal;
mod shares;

pub use masks::mask;
pub use rebuilding::{are_below, rebuild};
pub use refusal::Refusal;
pub use shares::{recombine, share, weigh};

// The most seats that a figure is shared among.
pub const MOST_SEATS: usize = 9;

// The limits of the threshold k: how many seats rebuild a figure.
pub const LEAST_THRESHOLD: u32 = 2;

pub const MOST_THRESHOLD: u32 = 5;
