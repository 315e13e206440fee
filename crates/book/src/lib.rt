//! The book: one tally shared among n seats, and the calls that change it.
#![tactic(auto)]

mod book;
mod deciding;
mod lists;
mod marking;
mod pages;
mod places;
mod rows;
mod secrets;
mod slate;

pub use book::Book;
use pages::Pages;
use secrets::Secrets;
use slate::{Hand, Line, Slate};

// How many lines a book has, numbered from 0.
pub const LINES: usize = 32;

// How many entries show writes: two for each line, and two for each sender of letters.
pub const SHOWN: usize = 82;
