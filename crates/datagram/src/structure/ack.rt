// An Ack: the numbers of datagrams that arrived.
ghost use Rattle.std.specs.Prelude.{◌≡◌};
ghost use Rattle.datagram.specs.Results.{map_ok};
ghost use Rattle.datagram.specs.Structures.{ack_of, among};
ghost use Rattle.datagram.specs.Views.{ack_says};
ghost use Rattle.std.specs.Iterator.{YieldsFirst, item_count};

use crate::fault::{Fault, Question};

// The numbers that are still to come, three octets each.
#[derive(Clone, Copy)]
pub struct Ack<'d> {
    octets: &'d [u8],
}

impl<'d> Iterator for Ack<'d> {
    type Item = u32;

    ghost remaining = { item_count ack_says };

    ghost next_gives = { YieldsFirst ack_says };

    fn next(&mut self) -> Option<u32> {
        let &[high, middle, low, ref rest @ ..] = self.octets else {
            return None;
        };
        self.octets = rest;
        Some(u32::from_be_bytes([0, high, middle, low]))
    }
}

impl<'d> Ack<'d> {
    pub fn names(mut self, number: u32) -> bool
        ensures { result ≡ among number (ack_says self.entry) }
    {
        self.any(|named| named == number)
    }

    pub(crate) fn read(data: &'d [u8], offset: usize) -> Result<Ack<'d>, Fault>
        ensures { map_ok ack_says result ≡ ack_of «data».now offset }
    {
        let [count, octets @ ..] = data else {
            return Err(Question::HoldsFixedPart.fails_at(offset));
        };
        if octets.len() != 3 * (*count >> 1) as usize {
            return Err(Question::CountsMeetEnd.fails_at(offset));
        }
        Ok(Ack { octets })
    }
}
