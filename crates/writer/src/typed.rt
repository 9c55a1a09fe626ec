// Data that is given whole, with the kind that it is said to have.
ghost use Rattle.std.specs.Prelude.{◌≡◌};
ghost use Rattle.writer.specs.Drafts.{reserved_clear, well_formed};
ghost use Rattle.datagram.specs.Kinds.{number_of};

use datagram::{Content, Kind};

// The count of an Ack or a Nack has a reserved bit beside it, which is written as zero.
fn is_reserved_clear(kind: Kind, data: &[u8]) -> bool
    ensures { result ≡ reserved_clear (number_of kind) «data».now }
{
    !matches!(kind, Kind::Ack | Kind::Nack) || data.first().is_none_or(|count| count & 1 == 0)
}

// Whether the reader takes the data for a structure of that kind, and its reserved bit is zero.
pub(crate) fn is_well_formed(kind: Kind, data: &[u8]) -> bool
    ensures { result ≡ well_formed (number_of kind) «data».now }
{
    Content::read(kind.number(), data, 0).is_ok() && is_reserved_clear(kind, data)
}
