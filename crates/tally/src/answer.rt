// What a form answers.
use arrayvec::ArrayVec;
use book::SHOWN;
use kinds::Code;
use sharing::MOST_SEATS;

#[derive(Debug, PartialEq, Eq, Drop)]
pub enum Answer {
    Done,
    // the shares of all seats, seat 1 first
    Opened {
        line: u32,
        total: Code,
        shares: ArrayVec<Code, MOST_SEATS>,
    },
    Shown {
        seat: u32,
        entries: [Code; SHOWN],
    },
}
