// What can keep the program from its transcript.
use rehearsal::{Stop, Unread};
use std::error::Error;
use std::{fmt, io};

#[derive(Debug, Drop)]
pub enum Failure {
    Reading(io::Error),
    Writing(io::Error),
    // a line of the script, and what is wrong with it
    Line(usize, &'static str),
    Memory,
}

impl Error for Failure {}

impl From<Unread> for Failure {
    fn from(unread: Unread) -> Failure {
        match unread {
            Unread::Malformed(line) => Failure::Line(line, "not what has to stand here"),
            Unread::EndsEarly(line) => Failure::Line(
                line,
                "the script ends before both ends are set up",
            ),
            Unread::NoMemory => Failure::Memory,
        }
    }
}

fn reason(error: &trunk::Error) -> &'static str {
    match error {
        trunk::Error::StartRefused(_) => "refused by 1: the start number is too high",
        trunk::Error::SamePeer => "both ends have this address and port",
        trunk::Error::NoSuchDatagram(_) => "that call wrote no datagram for this end",
        trunk::Error::OthersAddress(_) => "this is the address and port of the other end",
        trunk::Error::NoMemory => "out of memory",
    }
}

impl From<Stop> for Failure {
    fn from(stop: Stop) -> Failure {
        match stop {
            Stop::Unread(unread) => unread.into(),
            Stop::Refused(line, error) => Failure::Line(line, reason(&error)),
            Stop::NoMemory => Failure::Memory,
        }
    }
}

impl fmt::Display for Failure {
    fn fmt<W: fmt::Write>(&self, f: &mut fmt::Formatter<W>) -> fmt::Result {
        match self {
            Failure::Reading(e) => write!(f, "cannot read the script: {e}"),
            Failure::Writing(e) => write!(f, "cannot write the transcript: {e}"),
            Failure::Line(line, reason) => write!(f, "line {line}: {reason}"),
            Failure::Memory => write!(f, "out of memory"),
        }
    }
}
