// One payload: its header of five octets, then LENGTH octets of data.
ghost use Rattle.std.specs.Prelude.{◌≡◌, ◌+◌, ◌^◌, ◌<◌, ◌≤◌, length, IfOk};
ghost use Rattle.datagram.specs.Results.{map_ok};
ghost use Rattle.datagram.specs.Payloads.{payload_at, deserves_ack};
ghost use Rattle.datagram.specs.Views.{payload_says};

use crate::content::Content;
use crate::fault::{Fault, Question};

// `data` is a part of the caller's datagram, and `offset` says where that part begins.
#[derive(Clone, Copy)]
pub struct Payload<'d> {
    pub crv: u16,
    pub offset: usize,
    pub data: &'d [u8],
    pub content: Content<'d>,
}

impl<'d> Payload<'d> {
    // `rest` is the datagram from the payload's first octet on, and `at` that octet's offset.
    #[inline(always)]
    pub(crate) fn read(rest: &'d [u8], at: usize) -> Result<Payload<'d>, Fault>
        requires { at + length rest.now < 2 ^ 64 }
        ensures gives { map_ok payload_says result ≡ payload_at rest.now at }
        ensures within { IfOk result (λ p. p.offset + length p.«data».now ≤ at + length rest.now) }
    {
        let &[kind, c1, c0, l1, l0, ref after @ ..] = rest else {
            return Err(Question::HoldsPayloadHeader.fails_at(at));
        };
        let length = u16::from_be_bytes([l1, l0]) as usize;
        let Some((data, _)) = after.split_at_checked(length) else {
            return Err(Question::HoldsPayloadData.fails_at(at + 3));
        };
        let offset = at + 5;
        let content = Content::read(kind >> 1, data, offset)?;
        Ok(Payload {
            crv: u16::from_be_bytes([c1, c0]),
            offset,
            data,
            content,
        })
    }

    // An Ack may be asked for only along with something other than Acks and Nacks. Asked of the content, as not every content is of a
    // `Kind`.
    pub(crate) fn deserves_ack(&self) -> bool
        ensures { result ≡ deserves_ack (payload_says self.now) }
    {
        !matches!(self.content, Content::Ack(_) | Content::Nack(_))
    }
}
