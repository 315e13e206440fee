// Why a line of a sheet writes a fault.
ghost use Rattle.std.specs.Prelude.{◌≡◌};
ghost use Rattle.std.specs.Option.{option_map};
ghost use Rattle.tally.specs.Faults.{as_sheet_fault};
ghost use Rattle.tally.specs.Taking.{numbers_of, fault_numbers, fault_goes_on};
ghost use Rattle.tally.specs.declared.fault.SheetFault.TheVariants.{Form};

use forms::{FormFault, Layer};
use reading::{Place, ReadError, ReadFault};

// The cause of a sheet that is too long, and the place that the rules write for it. Causes are numbered through all
// layers, so no enum of one layer has this one.
const TOO_LONG: u32 = 26;

const NOWHERE: Place = Place { line: 0, column: 0 };

// The reader's fault, or the form's with the book's refusal inside it.
#[derive(Clone, Copy, Debug, PartialEq, Eq)]
pub enum SheetFault {
    // the sheet has more than 65,536 bytes
    TooLong,
    Reading(ReadFault),
    Form(FormFault),
    // no fault of the sheet's: there was no memory for its tokens
    NoMemory,
}

// What is told of a fault: its layer, its place, and the number of its cause.
#[derive(Clone, Copy, Debug, PartialEq, Eq)]
pub struct ToldFault {
    pub layer: Layer,
    pub place: Place,
    pub cause: u32,
}

// Both conversions are written out, since a derived one says of no value which fault it becomes.
impl From<ReadError> for SheetFault {
    ghost from_gives = { λ x r. r ≡ as_sheet_fault x };

    fn from(error: ReadError) -> SheetFault {
        match error {
            ReadError::Fault(fault) => SheetFault::Reading(fault),
            ReadError::TooLong => SheetFault::TooLong,
            ReadError::NoMemory => SheetFault::NoMemory,
        }
    }
}

impl From<FormFault> for SheetFault {
    ghost from_gives = { λ x r. r ≡ Form x };

    fn from(fault: FormFault) -> SheetFault {
        SheetFault::Form(fault)
    }
}

impl SheetFault {
    // What is told of the fault, where the line has the number; none where memory was wanting.
    pub(crate) fn told(&self, line: u32) -> Option<ToldFault>
        ensures { option_map numbers_of result ≡ fault_numbers line self.now }
    {
        match self {
            SheetFault::TooLong => Some(ToldFault {
                layer: Layer::Reader,
                place: NOWHERE,
                cause: TOO_LONG,
            }),
            SheetFault::Reading(fault) => Some(ToldFault {
                layer: Layer::Reader,
                place: fault.place,
                cause: fault.cause.number(),
            }),
            SheetFault::Form(fault) => Some(ToldFault {
                layer: fault.layer(),
                place: Place {
                    line,
                    column: fault.column(),
                },
                cause: fault.number(),
            }),
            SheetFault::NoMemory => None,
        }
    }

    // After the book's refusal a sheet goes on.
    pub(crate) fn goes_on(&self) -> bool
        ensures { result ≡ fault_goes_on self.now }
    {
        matches!(self, SheetFault::Form(FormFault::Refused(_)))
    }
}
