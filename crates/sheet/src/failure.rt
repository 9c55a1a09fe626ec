// What can keep the program from its sheet.
use std::alloc::AllocError;
use std::error::Error;
use std::{fmt, io};

#[derive(Debug, Drop)]
pub enum Failure {
    Reading(io::Error),
    Writing(io::Error),
    Memory,
}

impl Error for Failure {}

impl From<AllocError> for Failure {
    fn from(_: AllocError) -> Failure {
        Failure::Memory
    }
}

impl fmt::Display for Failure {
    fn fmt<W: fmt::Write>(&self, f: &mut fmt::Formatter<W>) -> fmt::Result {
        match self {
            Failure::Reading(e) => write!(f, "cannot read the capture: {e}"),
            Failure::Writing(e) => write!(f, "cannot write the sheet: {e}"),
            Failure::Memory => write!(f, "out of memory"),
        }
    }
}
