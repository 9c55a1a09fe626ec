// What a datagram is replied with.
ghost use Rattle.std.specs.Prelude.{◌≡◌, ℕ, ◌+◌, ◌^◌, ◌<◌, ◌≤◌, true, false, ◌++◌, length, drop, nat_le};
ghost use Rattle.datagram.specs.Views.{datagram_says, content_says, payloads_say};
ghost use Rattle.writer.specs.Bodies.{settled};
ghost use Rattle.writer.specs.Values.{every, content_within};
ghost use Rattle.endpoint.specs.Parts.{octets_in, settling_says, reply_says, Adds, Wrote};
ghost use Rattle.endpoint.specs.Replies.{unsupported_in, first_unsupported, settling, reply_to, is_empty, reply_octets};

use crate::echoes::{Echoes, add_echoes, echo_size};
use crate::laws::HEADER;
use datagram::{Content, Datagram, Entry, MAXIMUM};
use writer::{Refusal, Writer};

// What an Ack and a Nack of one number have as payloads, the Nack with one octet.
const ACK: usize = 9;

const NACK: usize = 13;

// How a reply begins: the Ack of a number, or its Nack with the type that is not supported, or neither.
#[derive(Clone, Copy)]
enum Settling {
    Acknowledging(u32),
    Rejecting { number: u32, kind: u8 },
    Nothing,
}

fn unsupported(content: &Content) -> Option<u8>
    ensures { result ≡ unsupported_in (content_says content.now) }
{
    match content {
        Content::Unsupported(kind, _) => Some(*kind),
        _ => None,
    }
}

impl Settling {
    fn of(datagram: Datagram) -> Settling
        ensures { settling_says result ≡ settling datagram.entry.number datagram.entry.wants_ack (first_unsupported (payloads_say datagram.entry.payloads)) }
    {
        let Datagram {
            number,
            wants_ack,
            mut payloads,
        } = datagram;
        if let Some(kind) = payloads.find_map(|payload| unsupported(&payload.content)) {
            return Settling::Rejecting { number, kind };
        }
        if wants_ack {
            Settling::Acknowledging(number)
        } else {
            Settling::Nothing
        }
    }

    // How many octets it has as a payload.
    fn size(&self) -> usize
        ensures { result ≡ octets_in (settled (settling_says self.now)) }
    {
        match self {
            Settling::Acknowledging(_) => ACK,
            Settling::Rejecting { .. } => NACK,
            Settling::Nothing => 0,
        }
    }

    // Adds it to a datagram, under no call.
    fn add_to(&self, writer: &mut Writer) -> Result<(), Refusal>
        ensures same { writer.new.buffer.ghost_name ≡ writer.old.buffer.ghost_name }
        ensures adds { Adds (settled (settling_says self.now)) writer.old result writer.new }
    {
        match *self {
            Settling::Acknowledging(number) => writer.add_ack(0, &[number]),
            Settling::Rejecting { number, kind } => writer.add_nack(
                0,
                &[Entry {
                    number,
                    reason: 0,
                    data: &[kind],
                }],
            ),
            Settling::Nothing => Ok(()),
        }
    }
}

// Nothing is copied: the payloads stay where the datagram is.
#[derive(Clone, Copy)]
pub(crate) struct Reply<'d> {
    settling: Settling,
    echoes: Echoes<'d>,
}

impl<'d> Reply<'d> {
    pub(crate) fn to(datagram: Datagram<'d>) -> Reply<'d>
        ensures { reply_says result ≡ reply_to (datagram_says datagram.entry) }
    {
        Reply {
            settling: Settling::of(datagram),
            echoes: Echoes::of(datagram.payloads),
        }
    }

    pub(crate) fn is_empty(&self) -> bool
        ensures { result ≡ is_empty (reply_says self.now) }
    {
        let mut echoes = self.echoes;
        matches!(self.settling, Settling::Nothing) && echoes.next().is_none()
    }

    // Whether its octets are no more than a datagram has.
    pub(crate) fn fits(&self) -> bool
        ensures { (n : ℕ) → result ≡ nat_le (length (reply_octets n (reply_says self.now))) 1024 }
    {
        let octets = self
            .echoes
            .fold(HEADER + self.settling.size(), |octets, echo| {
                octets.saturating_add(echo_size(&echo))
            });
        octets <= MAXIMUM
    }

    fn try_write(&self, number: u32, out: &mut [u8]) -> Result<usize, Refusal>
        requires number { number < 2 ^ 24 }
        requires room { 1024 ≤ length out.old }
        requires some { is_empty (reply_says self.now) ≡ false }
        requires inside { every content_within (reply_says self.now) ≡ true }
        requires fits { nat_le (length (reply_octets number (reply_says self.now))) 1024 ≡ true }
        ensures { Wrote (reply_octets number (reply_says self.now)) result out.old out.new }
    {
        let mut writer = Writer::over(out);
        writer.open(number, false)?;
        self.settling.add_to(&mut writer)?;
        add_echoes(&mut writer, self.echoes)?;
        writer.close()
    }

    // Writes it to the front of the buffer, and answers how many octets it has.
    pub(crate) fn write(&self, number: u32, out: &mut [u8]) -> usize
        requires number { number < 2 ^ 24 }
        requires room { 1024 ≤ length out.old }
        requires some { is_empty (reply_says self.now) ≡ false }
        requires inside { every content_within (reply_says self.now) ≡ true }
        requires fits { nat_le (length (reply_octets number (reply_says self.now))) 1024 ≡ true }
        ensures size { result ≡ length (reply_octets number (reply_says self.now)) }
        ensures buffer { out.new ≡ reply_octets number (reply_says self.now) ++ drop (length (reply_octets number (reply_says self.now))) out.old }
    {
        self.try_write(number, out).unwrap()
    }
}
