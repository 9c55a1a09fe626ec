// Payloads that are known to fit, written piece by piece.
ghost use Rattle.std.specs.Prelude.{◌≡◌, ◌+◌, ◌<◌, min, true, ◌++◌, length};
ghost use Rattle.std.specs.List.{flat_map};
ghost use Rattle.datagram.specs.Layout.{payload_octets, counted_octets};
ghost use Rattle.writer.specs.Drafts.{fits};
ghost use Rattle.datagram.specs.Kinds.{number_of};
ghost use Rattle.writer.specs.Pieces.{Grows};
ghost use Rattle.writer.specs.Values.{every};

use crate::element::{Element, put_all};
use crate::marks::{Begun, Marks};
use crate::pieces::payload_header;
use datagram::Kind;

// These two take the writer's buffer and marks side by side. As methods of the writer they got no proof: the check does not cover
// a guard that borrows a slice through the `&mut` of the struct that holds it.

// A payload whose data is three pieces.
pub(crate) fn write_pieces(
    buffer: &mut [u8],
    marks: &mut Marks,
    kind: Kind,
    crv: u16,
    first: &[u8],
    second: &[u8],
    third: &[u8],
)
    requires { fits marks.old (min 1024 (length buffer.old)) (length first.now + (length second.now + length third.now)) ≡ true }
    ensures { Grows buffer.old marks.old (number_of kind) (payload_octets (number_of kind) crv (first.now ++ (second.now ++ third.now))) buffer.new marks.new }
{
    let octets = first.len() + second.len() + third.len();
    let head = payload_header(kind, crv, octets as u16);
    let mut payload = Begun::new(buffer, marks);
    payload.put(&head);
    payload.put(first);
    payload.put(second);
    payload.put(third);
    payload.finish(kind.deserves_ack());
}

// A payload that counts elements. `octets` is how many its data has.
pub(crate) fn write_counted<E: Element>(
    buffer: &mut [u8],
    marks: &mut Marks,
    crv: u16,
    octets: u16,
    elements: &[E],
)
    requires few { length elements.now < 128 }
    requires inside { every E.within elements.now ≡ true }
    requires size { octets ≡ 1 + length (flat_map E.octets elements.now) }
    requires room { fits marks.old (min 1024 (length buffer.old)) octets ≡ true }
    ensures { Grows buffer.old marks.old (number_of E.its_kind) (payload_octets (number_of E.its_kind) crv (counted_octets (length elements.now) (flat_map E.octets elements.now))) buffer.new marks.new }
{
    let kind = E::kind();
    let head = payload_header(kind, crv, octets);
    let count = elements.len() as u8;
    let mut payload = Begun::new(buffer, marks);
    payload.put(&head);
    // The reserved bit beside the count is zero.
    payload.put(&[2 * count]);
    put_all(&mut payload, elements);
    payload.finish(kind.deserves_ack());
}
