// Writes a datagram into a caller's buffer.
ghost use Rattle.std.specs.Prelude.{◌≡◌, min, map, length};
ghost use Rattle.std.specs.Option.{option_map};
ghost use Rattle.datagram.specs.Structures.{call_message, i_am_alive, ack, nack, non_standard};
ghost use Rattle.datagram.specs.Views.{alive_says, entry_says, non_standard_says};
ghost use Rattle.writer.specs.Drafts.{fresh, draft_says, unless, open_of, item, typed, add_of, close_of, Does, done, size};
ghost use Rattle.writer.specs.Pieces.{against_data};
ghost use Rattle.writer.specs.Runs.{ReadsAs, WhatIsClosedReads};
ghost use Rattle.writer.specs.Values.{cookie_octets, plainly};

use crate::element::{Element, counted_size, counted_within};
use crate::marks::{HEADER, Marks};
use crate::payload::{write_counted, write_pieces};
use crate::pieces::{alive_header, header};
use crate::refusal::{Found, Refusal};
use crate::size::{LONGEST_COOKIE, LONGEST_OID, alive_size, non_standard_size};
use crate::typed::is_well_formed;
use datagram::{Alive, Entry, Kind, MAXIMUM, NonStandard};

// One datagram in the making: open it, add payloads, close it. A call that is refused changes nothing.
// The buffer is the caller's, with its mark beside it, since nothing here is on a heap. That it stays the caller's is said by each call
// (`same`): a fact of two states, which no type of one can say, and no model either; nor is it a part of `Does`,
// which speaks of what is written.
#[derive(Drop)]
pub struct Writer<'b> {
    buffer: &'b mut [u8],
    marks: Marks,
}

impl<'b> Writer<'b> {
    // Nothing is written yet, and no datagram is open.
    pub fn over(buffer: &'b mut [u8]) -> Writer<'b>
        ensures lent { result.buffer.ghost_name ≡ buffer.entry.ghost_name }
        ensures value { (result.buffer.now ≡ buffer.old) × (result.marks ≡ fresh) }
    {
        Writer {
            buffer,
            marks: Marks::fresh(),
        }
    }

    // So many octets of the buffer a datagram may fill.
    fn room(&self) -> usize
        ensures { result ≡ min 1024 (length self.now.buffer.now) }
    {
        self.buffer.len().min(MAXIMUM)
    }

    fn check_payload(&self, octets: usize, within: bool) -> Result<(), Refusal>
        ensures { result ≡ unless (against_data self.now.marks (min 1024 (length self.now.buffer.now)) octets within) tt }
    {
        self.marks.check_payload(self.room(), octets, within)
    }

    // The header, at the buffer's start. COUNT is written at closing.
    pub fn open(&mut self, number: u32, wants_ack: bool) -> Result<(), Refusal>
        ensures same { self.new.buffer.ghost_name ≡ self.old.buffer.ghost_name }
        ensures does { Does self.old (open_of (draft_says self.old) number wants_ack) done result self.new }
    {
        let room = self.room();
        self.marks.check_opening(room, number)?;
        self.buffer[0..HEADER].copy_from_slice(&header(number, wants_ack));
        self.marks = Marks::opened(wants_ack);
        Ok(())
    }

    fn add_counted<E: Element>(&mut self, crv: u16, elements: &[E]) -> Result<(), Refusal>
        ensures same { self.new.buffer.ghost_name ≡ self.old.buffer.ghost_name }
        ensures does { Does self.old (add_of (draft_says self.old) (item (record { crv = crv; content = E.content elements.now }))) done result self.new }
    {
        let octets = counted_size(elements);
        self.check_payload(octets, counted_within(elements))?;
        let Writer { buffer, marks } = self;
        write_counted(buffer, marks, crv, octets as u16, elements);
        Ok(())
    }

    pub fn add_call_message(&mut self, crv: u16, message: &[u8]) -> Result<(), Refusal>
        ensures same { self.new.buffer.ghost_name ≡ self.old.buffer.ghost_name }
        ensures does { Does self.old (add_of (draft_says self.old) (item (record { crv = crv; content = call_message message.now }))) done result self.new }
    {
        self.check_payload(message.len(), true)?;
        let Writer { buffer, marks } = self;
        write_pieces(buffer, marks, Kind::CallMessage, crv, &[], &[], message);
        Ok(())
    }

    // A cookie of length 0 is an absent one.
    pub fn add_alive(&mut self, crv: u16, alive: Alive) -> Result<(), Refusal>
        ensures same { self.new.buffer.ghost_name ≡ self.old.buffer.ghost_name }
        ensures does { Does self.old (add_of (draft_says self.old) (item (record { crv = crv; content = i_am_alive (plainly (alive_says alive.entry)) }))) done result self.new }
    {
        let cookie = alive.cookie.unwrap_or(&[]);
        self.check_payload(alive_size(cookie.len()), cookie.len() <= LONGEST_COOKIE)?;
        let head = alive_header(alive.validity, cookie.len() as u16, alive.wants_reply);
        let Writer { buffer, marks } = self;
        write_pieces(buffer, marks, Kind::IAmAlive, crv, &head, &[], cookie);
        Ok(())
    }

    pub fn add_ack(&mut self, crv: u16, numbers: &[u32]) -> Result<(), Refusal>
        ensures same { self.new.buffer.ghost_name ≡ self.old.buffer.ghost_name }
        ensures does { Does self.old (add_of (draft_says self.old) (item (record { crv = crv; content = ack numbers.now }))) done result self.new }
    {
        self.add_counted(crv, numbers)
    }

    pub fn add_nack(&mut self, crv: u16, entries: &[Entry]) -> Result<(), Refusal>
        ensures same { self.new.buffer.ghost_name ≡ self.old.buffer.ghost_name }
        ensures does { Does self.old (add_of (draft_says self.old) (item (record { crv = crv; content = nack (map entry_says entries.now) }))) done result self.new }
    {
        self.add_counted(crv, entries)
    }

    pub fn add_non_standard(&mut self, crv: u16, content: NonStandard) -> Result<(), Refusal>
        ensures same { self.new.buffer.ghost_name ≡ self.old.buffer.ghost_name }
        ensures does { Does self.old (add_of (draft_says self.old) (item (record { crv = crv; content = non_standard (non_standard_says content.entry) }))) done result self.new }
    {
        let NonStandard { oid, free } = content;
        self.check_payload(
            non_standard_size(oid.len(), free.len()),
            oid.len() <= LONGEST_OID,
        )?;
        let head = (oid.len() as u16).to_be_bytes();
        let Writer { buffer, marks } = self;
        write_pieces(buffer, marks, Kind::NonStandard, crv, &head, oid, free);
        Ok(())
    }

    // Data by the number of its type: whether that type is written is one of the questions. It must be what the reader takes for a
    // structure of that type.
    pub fn add_by_type(&mut self, kind: u8, crv: u16, data: &[u8]) -> Result<(), Refusal>
        ensures same { self.new.buffer.ghost_name ≡ self.old.buffer.ghost_name }
        ensures does { Does self.old (add_of (draft_says self.old) (typed kind crv «data».now)) done result self.new }
    {
        let room = self.room();
        self.marks.check_room(room, data.len())?;
        let Ok(kind) = Kind::try_from(kind) else {
            return Err(self.marks.refusal(Found::TypeNotWritten));
        };
        self.marks
            .ask(is_well_formed(kind, data), Found::OutsideField)?;
        let Writer { buffer, marks } = self;
        write_pieces(buffer, marks, kind, crv, &[], &[], data);
        Ok(())
    }

    // Writes COUNT, and answers how many octets the datagram has.
    pub fn close(&mut self) -> Result<usize, Refusal>
        ensures same { self.new.buffer.ghost_name ≡ self.old.buffer.ghost_name }
        ensures does { Does self.old (close_of (draft_says self.old)) size result self.new }
        ensures reads { ReadsAs self.old result self.new }
        ensures law { WhatIsClosedReads }
    {
        let room = self.room();
        self.marks.check_closing(room)?;
        self.buffer[4] = self.marks.count() - 1;
        self.marks.close();
        Ok(self.marks.mark())
    }
}
