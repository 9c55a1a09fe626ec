// The five octets at the front of a datagram.
ghost use Rattle.std.specs.Prelude.{◌≡◌};
ghost use Rattle.datagram.specs.Datagrams.{header_of};

use crate::fault::{Fault, Question};

// A datagram has at most so many octets.
pub const MAXIMUM: usize = 1024;

#[derive(Clone, Copy)]
pub struct Header {
    pub number: u32,
    pub wants_ack: bool,
    pub payloads: usize,
}

impl Header {
    pub(crate) fn read(datagram: &[u8]) -> Result<Header, Fault>
        ensures { result ≡ header_of datagram.now }
    {
        if datagram.len() > MAXIMUM {
            return Err(Question::AtMostMaximum.fails_at(MAXIMUM));
        }
        let &[first, high, middle, low, count, ..] = datagram else {
            return Err(Question::HoldsHeader.fails_at(datagram.len()));
        };
        if first >> 4 != 0 {
            return Err(Question::VersionZero.fails_at(0));
        }
        Ok(Header {
            number: u32::from_be_bytes([0, high, middle, low]),
            wants_ack: first & 1 == 1,
            payloads: count as usize + 1,
        })
    }
}
