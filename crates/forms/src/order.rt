// What a form asks for.
use crate::numbers::Numbers;
use kinds::Code;

// The kind of the sheet's book, or one of the nine calls with the numbers handed in.
#[derive(Clone, Copy, Debug)]
pub enum Order {
    // by its number, whatever it is: which kinds there are is known where the book is laid
    Kind {
        number: u32,
    },
    Set {
        n: u32,
        k: u32,
    },
    Enter {
        line: u32,
        house: u32,
        figure: Code,
        strip: Numbers,
    },
    Sum {
        destination: u32,
        a: u32,
        b: u32,
    },
    Scale {
        destination: u32,
        a: u32,
        constant: Code,
    },
    Begin {
        destination: u32,
        a: u32,
        b: u32,
    },
    Deal {
        seat: u32,
        strip: Numbers,
    },
    Gather {
        seat: u32,
    },
    Open {
        line: u32,
    },
    Show {
        seat: u32,
    },
}
