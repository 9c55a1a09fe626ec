// What an Ack or a Nack counts: numbers, or entries.
ghost use Rattle.std.specs.Prelude.{◌≡◌, ℕ, ◌+◌, ◌≤◌, Bool, true, List, map, length, ◌&&◌, nat_lt};
ghost use Rattle.std.specs.List.{flat_map};
ghost use Rattle.datagram.specs.Layout.{octets24};
ghost use Rattle.datagram.specs.Structures.{Content, ack, nack};
ghost use Rattle.datagram.specs.Views.{entry_says};
ghost use Rattle.writer.specs.Counted.{Counts, ack_counts, nack_counts};
ghost use Rattle.writer.specs.Pieces.{Puts, Measures, said_octets, said_within};
ghost use Rattle.writer.specs.Values.{every, is_number};
ghost use Rattle.datagram.specs.declared.kind.Kind.{Kind};

use crate::marks::{Begun, LARGEST_NUMBER};
use crate::pieces::number_octets;
use crate::size::capped;
use datagram::{Entry, Kind, MAXIMUM};

// The count has seven bits.
const MOST_COUNTED: usize = 127;

// The length of an entry's data has eight bits.
const LONGEST_DATA: usize = 255;

// Number, reason and length of an entry.
const ENTRY_HEADER: usize = 6;

// How an element is written, when its values lie within their fields, and of which content a list of them is. The law says that what is
// written of a list is the data of that content.
pub(crate) trait Element {
    ghost its_kind: { Kind };

    ghost octets: { Self → List ℕ };

    ghost within: { Self → Bool };

    ghost content: { List Self → Content };

    fn kind() -> Kind
        ensures { result ≡ its_kind };

    // Exact wherever it fits a datagram.
    fn size(&self) -> usize
        ensures { Measures result (length (octets self.now)) };

    fn is_within(&self) -> bool
        ensures { result ≡ within self.now };

    fn put(&self, payload: &mut Begun)
        requires inside { within self.now ≡ true }
        requires room { payload.old.marks.now.mark + length (octets self.now) ≤ length payload.old.buffer.now }
        ensures { Puts payload.old (octets self.now) payload.new };

    ghost counts: { (es : List Self) → Counts its_kind octets within es (content es) };
}

impl Element for u32 {
    ghost its_kind = { Kind.Ack };

    ghost octets = { octets24 };

    ghost within = { is_number };

    ghost content = { ack };

    ghost counts = { ack_counts };

    fn kind() -> Kind {
        Kind::Ack
    }

    fn size(&self) -> usize {
        3
    }

    fn is_within(&self) -> bool {
        *self <= LARGEST_NUMBER
    }

    fn put(&self, payload: &mut Begun) {
        payload.put(&number_octets(*self));
    }
}

impl Element for Entry<'_> {
    ghost its_kind = { Kind.Nack };

    ghost octets = { said_octets };

    ghost within = { said_within };

    ghost content = { λ es. nack (map entry_says es) };

    ghost counts = { nack_counts };

    fn kind() -> Kind
        ensures { result ≡ Kind.Nack }
    {
        Kind::Nack
    }

    fn size(&self) -> usize {
        ENTRY_HEADER + capped(self.data.len())
    }

    fn is_within(&self) -> bool {
        self.number <= LARGEST_NUMBER && self.data.len() <= LONGEST_DATA
    }

    fn put(&self, payload: &mut Begun) {
        payload.put(&number_octets(self.number));
        payload.put(&self.reason.to_be_bytes());
        payload.put(&[self.data.len() as u8]);
        payload.put(self.data);
    }
}

// How many octets of data a payload of these elements has, its count among them. Past what a datagram holds they are counted no further.
pub(crate) fn counted_size<E: Element>(elements: &[E]) -> usize
    ensures { Measures result (1 + length (flat_map E.octets elements.now)) }
{
    let mut octets: usize = 1;
    for element in elements {
        octets = octets.saturating_add(element.size());
        if octets > MAXIMUM {
            return octets;
        }
    }
    octets
}

// Whether a payload can have these elements.
pub(crate) fn counted_within<E: Element>(elements: &[E]) -> bool
    ensures { result ≡ (nat_lt (length elements.now) 128 && every E.within elements.now) }
{
    elements.len() <= MOST_COUNTED && elements.iter().all(|element| element.is_within())
}

pub(crate) fn put_all<E: Element>(payload: &mut Begun, elements: &[E])
    requires inside { every E.within elements.now ≡ true }
    requires room { payload.old.marks.now.mark + length (flat_map E.octets elements.now) ≤ length payload.old.buffer.now }
    ensures { Puts payload.old (flat_map E.octets elements.now) payload.new }
{
    for element in elements {
        element.put(payload);
    }
}
