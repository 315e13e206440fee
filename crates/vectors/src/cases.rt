// Calls of rebuild: true shares, damaged ones, each refusal at its bound, and two causes at once.
use kinds::Code;

// The seats and the shares are two lists, as the rules hand them in.
#[derive(Clone, Copy)]
pub struct Case {
    pub k: u32,
    pub seats: &'static [u32],
    pub shares: &'static [Code],
}

pub const CASES: [Case; 28] = [
    Case {
        k: 2,
        seats: &[1, 3],
        shares: &[9, 19],
    },
    Case {
        k: 2,
        seats: &[3, 1],
        shares: &[19, 9],
    },
    Case {
        k: 2,
        seats: &[1, 2, 3],
        shares: &[9, 14, 19],
    },
    Case {
        k: 2,
        seats: &[1, 2, 3],
        shares: &[9, 14, 18],
    },
    Case {
        k: 2,
        seats: &[1, 3],
        shares: &[9, 18],
    },
    Case {
        k: 3,
        seats: &[5, 2, 9],
        shares: &[1, 2, 3],
    },
    Case {
        k: 5,
        seats: &[9, 8, 7, 6, 5],
        shares: &[0, 0, 0, 0, 1],
    },
    Case {
        k: 5,
        seats: &[9, 8, 7, 6, 5, 4],
        shares: &[0, 0, 0, 0, 0, 0],
    },
    Case {
        k: 4,
        seats: &[1, 2, 3, 4, 5, 6, 7, 8, 9],
        shares: &[7, 7, 7, 7, 7, 7, 7, 7, 7],
    },
    Case {
        k: 4,
        seats: &[1, 2, 3, 4, 5, 6, 7, 8, 9],
        shares: &[7, 7, 7, 7, 7, 7, 7, 7, 8],
    },
    // the threshold
    Case {
        k: 1,
        seats: &[1, 2],
        shares: &[1, 1],
    },
    Case {
        k: 6,
        seats: &[1, 2, 3, 4, 5, 6],
        shares: &[1, 1, 1, 1, 1, 1],
    },
    Case {
        k: 0,
        seats: &[],
        shares: &[],
    },
    Case {
        k: 4294967295,
        seats: &[1],
        shares: &[1],
    },
    // the lists
    Case {
        k: 2,
        seats: &[1, 2],
        shares: &[1, 2, 3],
    },
    Case {
        k: 2,
        seats: &[1, 2, 3],
        shares: &[1, 2],
    },
    Case {
        k: 2,
        seats: &[1],
        shares: &[1],
    },
    Case {
        k: 2,
        seats: &[],
        shares: &[],
    },
    Case {
        k: 3,
        seats: &[1, 2],
        shares: &[1, 2],
    },
    Case {
        k: 2,
        seats: &[1, 2, 3, 4, 5, 6, 7, 8, 9, 1],
        shares: &[1, 1, 1, 1, 1, 1, 1, 1, 1, 1],
    },
    // the seats
    Case {
        k: 2,
        seats: &[0, 1],
        shares: &[1, 2],
    },
    Case {
        k: 2,
        seats: &[9, 10],
        shares: &[1, 2],
    },
    Case {
        k: 2,
        seats: &[1, 4294967295],
        shares: &[1, 2],
    },
    Case {
        k: 2,
        seats: &[4, 2, 4],
        shares: &[1, 2, 1],
    },
    // the shares, and a seat before a share
    Case {
        k: 2,
        seats: &[1, 2],
        shares: &[30, 31],
    },
    Case {
        k: 2,
        seats: &[1, 2],
        shares: &[255, 256],
    },
    Case {
        k: 2,
        seats: &[1, 2],
        shares: &[2147483647, 4294967295],
    },
    Case {
        k: 2,
        seats: &[1, 1],
        shares: &[4294967295, 1],
    },
];
