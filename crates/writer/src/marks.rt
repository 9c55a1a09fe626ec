// How far a datagram is written, and the guard of a payload that was begun.
ghost use Rattle.std.specs.Prelude.{◌≡◌, ◌+◌, ◌<◌, ◌≤◌, length, unwrap_or};
ghost use Rattle.writer.specs.Drafts.{fresh, first_of, unless, opened_marks, closed_marks, is_open, fits, closable, counted, against_opening, against_closing};
ghost use Rattle.writer.specs.Pieces.{Puts, against_data};
ghost use Rattle.writer.specs.Refusals.{refused_at};

use crate::refusal::{Found, Layer, Refusal};

// The header of a datagram, and that of a payload.
pub const HEADER: usize = 5;

// More payloads have no room, even with no data. The room says so too; asked of the count as well, no marks can overflow it.
const MOST_PAYLOADS: u8 = 203;

pub const LARGEST_NUMBER: u32 = 0xFF_FFFF;

// The mark counts the octets that are filled, and is 0 until a datagram is opened; the count counts its payloads.
// How much room there is belongs to the buffer and not to the marks, so each question is given it.
// An Ack is asked for or not, and some payload deserves it or none. `closed` is a flag beside them: an enum of three
// states would hold the same mark and count in two of them.
#[derive(Clone, Copy)]
pub struct Marks {
    mark: usize,
    count: u8,
    asked: bool,
    deserved: bool,
    closed: bool,
}

impl Marks {
    pub(crate) fn fresh() -> Marks
        ensures { result ≡ fresh }
    {
        Marks {
            mark: 0,
            count: 0,
            asked: false,
            deserved: false,
            closed: false,
        }
    }

    // Behind a header that was written.
    pub(crate) fn opened(asked: bool) -> Marks
        ensures { result ≡ opened_marks asked }
    {
        Marks {
            mark: HEADER,
            asked,
            ..Marks::fresh()
        }
    }

    pub(crate) fn mark(&self) -> usize
        ensures { result ≡ self.now.mark }
    {
        self.mark
    }

    pub(crate) fn count(&self) -> u8
        ensures { result ≡ self.now.count }
    {
        self.count
    }

    pub(crate) fn refusal(&self, found: Found) -> Refusal
        ensures { result ≡ refused_at self.now.mark found }
    {
        Refusal {
            found,
            layer: Layer::Writer,
            offset: self.mark,
        }
    }

    // Whether there is a header, and the datagram is not closed.
    fn is_open(&self, room: usize) -> bool
        ensures { result ≡ is_open self.now room }
    {
        self.mark.min(room) >= HEADER && !self.closed
    }

    fn fits(&self, room: usize, octets: usize) -> bool
        ensures { result ≡ fits self.now room octets }
    {
        self.is_open(room)
            && self.count < MOST_PAYLOADS
            && octets <= room
            && self.mark <= room - octets
            && HEADER <= room - octets - self.mark
    }

    // A question: where it does not hold, that is found.
    pub(crate) fn ask(&self, holds: bool, found: Found) -> Result<(), Refusal>
        ensures { result ≡ unless (first_of holds (refused_at self.now.mark found) None) tt }
    {
        if holds {
            Ok(())
        } else {
            Err(self.refusal(found))
        }
    }

    // Refuses a header with that number, if something is against it.
    pub(crate) fn check_opening(&self, room: usize, number: u32) -> Result<(), Refusal>
        ensures { result ≡ unless (against_opening self.now room number) tt }
    {
        self.ask(self.mark == 0 && room >= HEADER, Found::NoRoom)?;
        self.ask(number <= LARGEST_NUMBER, Found::OutsideField)
    }

    // Refuses a payload with so many octets of data, if it has no room.
    pub(crate) fn check_room(&self, room: usize, octets: usize) -> Result<(), Refusal>
        ensures { result ≡ unless (first_of (fits self.now room octets) (refused_at self.now.mark Found.NoRoom) None) tt }
    {
        self.ask(self.fits(room, octets), Found::NoRoom)
    }

    // Refuses a payload of a type that is written, if something is against it.
    pub(crate) fn check_payload(
        &self,
        room: usize,
        octets: usize,
        within: bool,
    ) -> Result<(), Refusal>
        ensures { result ≡ unless (against_data self.now room octets within) tt }
    {
        self.check_room(room, octets)?;
        self.ask(within, Found::OutsideField)
    }

    fn is_closable(&self, room: usize) -> bool
        ensures { result ≡ closable self.now room }
    {
        self.is_open(room) && self.count > 0 && (!self.asked || self.deserved)
    }

    // Refuses to close, if something is against it.
    pub(crate) fn check_closing(&self, room: usize) -> Result<(), Refusal>
        ensures { result ≡ unless (against_closing self.now room) tt }
    {
        self.ask(self.is_closable(room), Found::NotClosable)
    }

    pub(crate) fn close(&mut self)
        ensures { self.new ≡ closed_marks self.old }
    {
        self.closed = true;
    }
}

// A payload that was begun: what is put goes behind the mark, and its end puts the marks back, unless it was finished.
pub struct Begun<'m> {
    buffer: &'m mut [u8],
    marks: &'m mut Marks,
    // None once there is nothing to put back.
    before: Option<Marks>,
}

impl<'m> Begun<'m> {
    pub(crate) fn new(buffer: &'m mut [u8], marks: &'m mut Marks) -> Begun<'m>
        ensures lent_buffer { result.buffer.ghost_name ≡ buffer.entry.ghost_name }
        ensures lent_marks { result.marks.ghost_name ≡ marks.entry.ghost_name }
        ensures value { (result.buffer.now ≡ buffer.old) × ((result.marks.now ≡ marks.old) × (result.before ≡ Some marks.old)) }
    {
        let before = Some(*marks);
        Begun {
            buffer,
            marks,
            before,
        }
    }

    // Writes `new` at the mark, and moves the mark past it.
    pub(crate) fn put(&mut self, new: &[u8])
        requires { self.old.marks.now.mark + length new.now ≤ length self.old.buffer.now }
        ensures { Puts self.old new.now self.new }
    {
        let start = self.marks.mark;
        let end = start + new.len();
        self.buffer[start..end].copy_from_slice(new);
        self.marks.mark = end;
    }

    // One payload more; it deserves an Ack or not.
    pub(crate) fn finish(&mut self, deserving: bool)
        requires { self.old.marks.now.count < 255 }
        ensures same_buffer { self.new.buffer.ghost_name ≡ self.old.buffer.ghost_name }
        ensures same_marks { self.new.marks.ghost_name ≡ self.old.marks.ghost_name }
        ensures moves { (self.new.buffer.now ≡ self.old.buffer.now) × ((self.new.marks.now ≡ counted self.old.marks.now deserving) × (self.new.before ≡ None)) }
    {
        self.marks.count += 1;
        self.marks.deserved = self.marks.deserved || deserving;
        self.before = None;
    }
}

impl Drop for Begun<'_> {
    fn drop(self)
        ensures buffer { self.exit.0.now ≡ self.entry.buffer.now }
        ensures marks { self.exit.1.0.now ≡ unwrap_or self.entry.before self.entry.marks.now }
    {
        if let Some(before) = self.before {
            *self.marks = before;
        }
        // An end has to take its value apart.
        let Begun {
            buffer: _,
            marks: _,
            before: _,
        } = self;
    }
}
