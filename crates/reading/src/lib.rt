//! The reader of a tally sheet: each line of the sheet is one form, `(word item item ..)`, and is read into tokens that borrow the
//! sheet's bytes, or answered by the leftmost fault.
#![tactic(auto)]

mod cursor;
mod digits;
mod parts;
pub mod reader;
pub mod token;

pub use digits::value;
pub use parts::MOST_NUMBERS;
pub use reader::Reader;
pub use token::{Cause, Part, Place, ReadError, ReadFault, Token};

// The most bytes that a sheet may have.
pub const MOST_BYTES: usize = 65_536;

#[cfg(test)]
mod tests {
    use crate::reader::Reader;
    use crate::token::ReadError;
    use std::alloc::Global;

    // How many tokens the first line has, or the cause and the column of its fault, if it is one of the line's.
    fn outcome(heap: Global, sheet: &[u8]) -> Result<usize, Option<(u32, u32)>> {
        match Reader::new(sheet).read_line(heap) {
            Ok(tokens) => Ok(tokens.len()),
            Err(ReadError::Fault(fault)) => Err(Some((fault.cause.number(), fault.place.column))),
            Err(_) => Err(None),
        }
    }

    #[test]
    fn lines(rt: HostRuntime) {
        let heap = rt.alloc();
        assert_eq!(rt; outcome(heap, b"(enter 12 () (3 4))\n"), Ok(4));
        assert_eq!(rt; outcome(heap, b"(enter 00x"), Err(Some((21, 8))));
        assert_eq!(rt; outcome(heap, b"(enter 4"), Err(Some((20, 9))));
        assert_eq!(rt; outcome(heap, b"(enterings)\n"), Err(Some((20, 10))));
        assert_eq!(rt;
            outcome(heap, b"(a (1 2 3 4 5 6 7 8 9 10x"),
            Err(Some((22, 23)))
        );
        assert_eq!(rt;
            outcome(heap, b"(a (1 2 3 4 5 6 7 8 9 010"),
            Err(Some((21, 23)))
        );
    }
}
