//! A whole tally sheet: its lines are read, judged and run one by one, and what they write is one text.
#![tactic(auto)]

mod answer;
mod desk;
mod fault;
mod line;
mod memory;
mod sheet;
mod text;

pub use memory::NoMemory;
pub use sheet::write_up;
