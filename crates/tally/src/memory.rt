// The one thing that keeps a sheet from its text.
use std::alloc::AllocError;
use std::fmt;
use thiserror::Error;

// There is no memory for the text.
#[derive(Clone, Copy, Debug, PartialEq, Eq, Error)]
#[error("there is not enough memory for the sheet's text")]
pub struct NoMemory;

// Both conversions are written out: a derived one wants a field for what came, and nothing is to be told of it.
impl From<AllocError> for NoMemory {
    fn from(_error: AllocError) -> NoMemory {
        NoMemory
    }
}

impl From<fmt::Error> for NoMemory {
    fn from(_error: fmt::Error) -> NoMemory {
        NoMemory
    }
}
