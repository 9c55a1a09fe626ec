// What a payload's data holds, by the payload's type.
ghost use Rattle.std.specs.Prelude.{◌≡◌};
ghost use Rattle.datagram.specs.Results.{map_ok};
ghost use Rattle.datagram.specs.Structures.{content_of, type_of};
ghost use Rattle.datagram.specs.Views.{content_says};

use crate::fault::Fault;
use crate::kind::Kind;
use crate::structure::ack::Ack;
use crate::structure::alive::Alive;
use crate::structure::nack::Nack;
use crate::structure::nonstandard::NonStandard;

// A view of the data; that of an unsupported type goes with the type.
#[derive(Clone, Copy)]
pub enum Content<'d> {
    CallMessage(&'d [u8]),
    IAmAlive(Alive<'d>),
    Ack(Ack<'d>),
    Nack(Nack<'d>),
    NonStandard(NonStandard<'d>),
    Unsupported(u8, &'d [u8]),
}

impl<'d> Content<'d> {
    // The payload's type, as the datagram has it: a number and no `Kind`, since most of the 128 types have no meaning here.
    pub fn kind(&self) -> u8
        ensures { result ≡ type_of (content_says self.now) }
    {
        match self {
            Content::CallMessage(_) => Kind::CallMessage.number(),
            Content::IAmAlive(_) => Kind::IAmAlive.number(),
            Content::Ack(_) => Kind::Ack.number(),
            Content::Nack(_) => Kind::Nack.number(),
            Content::NonStandard(_) => Kind::NonStandard.number(),
            Content::Unsupported(kind, _) => *kind,
        }
    }

    // The data of a payload of that type, whose first octet has the offset `offset`. Data and offset stay two arguments, down to the
    // structures: a struct of both would only be made here and taken apart there, and the contract of a reader that answers a question in
    // place of a fault would have to speak of every offset.
    #[inline(always)]
    pub fn read(kind: u8, data: &'d [u8], offset: usize) -> Result<Content<'d>, Fault>
        ensures { map_ok content_says result ≡ content_of kind «data».now offset }
    {
        let Ok(supported) = Kind::try_from(kind) else {
            return Ok(Content::Unsupported(kind, data));
        };
        Ok(match supported {
            Kind::CallMessage => Content::CallMessage(data),
            Kind::IAmAlive => Content::IAmAlive(Alive::read(data, offset)?),
            Kind::Ack => Content::Ack(Ack::read(data, offset)?),
            Kind::Nack => Content::Nack(Nack::read(data, offset)?),
            Kind::NonStandard => Content::NonStandard(NonStandard::read(data, offset)?),
        })
    }
}
