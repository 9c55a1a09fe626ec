// A Nack: the numbers of datagrams that were rejected, each with a reason.
ghost use Rattle.std.specs.Prelude.{◌≡◌};
ghost use Rattle.std.specs.Option.{option_map};
ghost use Rattle.datagram.specs.Results.{map_ok};
ghost use Rattle.datagram.specs.Places.{first_entry, after_first, entries_meet_end};
ghost use Rattle.datagram.specs.Structures.{nack_of, reason_for};
ghost use Rattle.datagram.specs.Views.{entry_says, entries_in, nack_says};
ghost use Rattle.std.specs.Iterator.{YieldsFirstBy, item_count};

use crate::fault::{Fault, Question};

// One rejected datagram, and why.
#[derive(Clone, Copy)]
pub struct Entry<'d> {
    pub number: u32,
    pub reason: u16,
    pub data: &'d [u8],
}

// The entries that are still to come, so many of them in these octets. The number is announced, and need not fit the octets.
#[derive(Clone, Copy)]
pub struct Nack<'d> {
    octets: &'d [u8],
    left: u8,
}

impl<'d> Iterator for Nack<'d> {
    type Item = Entry<'d>;

    ghost remaining = { item_count nack_says };

    ghost next_gives = { YieldsFirstBy entry_says nack_says };

    fn next(&mut self) -> Option<Entry<'d>> {
        self.take_entry()
    }
}

impl<'d> Nack<'d> {
    // The reason given for a number: that of the first entry with it.
    pub fn reason_for(mut self, number: u32) -> Option<u16>
        ensures { result ≡ reason_for number (nack_says self.entry) }
    {
        self.find(|entry| entry.number == number)
            .map(|entry| entry.reason)
    }

    // The next entry, if one is left and whole. `next` by another name, as its contract tells of the octets that are left too.
    fn take_entry(&mut self) -> Option<Entry<'d>>
        ensures gives { option_map entry_says result ≡ first_entry (entries_in self.old) }
        ensures moves { entries_in self.new ≡ after_first (entries_in self.old) }
    {
        if self.left == 0 {
            return None;
        }
        let &[n2, n1, n0, r1, r0, length, ref after @ ..] = self.octets else {
            return None;
        };
        let (data, rest) = after.split_at_checked(length as usize)?;
        self.octets = rest;
        self.left -= 1;
        Some(Entry {
            number: u32::from_be_bytes([0, n2, n1, n0]),
            reason: u16::from_be_bytes([r1, r0]),
            data,
        })
    }

    // Whether the entries end exactly where the octets do.
    fn meets_end(mut self) -> bool
        ensures { result ≡ entries_meet_end (entries_in self.entry) }
    {
        while let Some(_) = self.take_entry() {}
        self.left == 0 && self.octets.is_empty()
    }

    pub(crate) fn read(data: &'d [u8], offset: usize) -> Result<Nack<'d>, Fault>
        ensures { map_ok nack_says result ≡ nack_of «data».now offset }
    {
        let [count, octets @ ..] = data else {
            return Err(Question::HoldsFixedPart.fails_at(offset));
        };
        let nack = Nack {
            octets,
            left: *count >> 1,
        };
        if !nack.meets_end() {
            return Err(Question::CountsMeetEnd.fails_at(offset));
        }
        Ok(nack)
    }
}
