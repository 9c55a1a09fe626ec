// Why a call was refused.
ghost use Rattle.std.specs.Prelude.{◌≡◌};
ghost use Rattle.endpoint.specs.Refusals.{number_of, layer_of_part, layer_of, offset_of};
ghost use Rattle.endpoint.specs.declared.refusal.Refusal.TheVariants.{Unreadable};

use datagram::Fault;

// Each case by what was found. A refused call changed nothing and wrote nothing.
#[derive(Clone, Copy)]
pub enum Refusal {
    StartTooHigh,
    NoSuchPlace,
    TimeTooHigh,
    ClockRanBack,
    PlaceHeld,
    PeerEnrolled,
    PlaceVacant,
    BufferTooShort,
    BodySize,
    NotOnlyMessages,
    StillOutstanding,
    NumbersSpent,
    SenderUnknown,
    TooOld,
    ReplyTooLong,
    // a fault of the datagram or the body, passed on as it is
    Unreadable(Fault),
}

// Where a refusal arose: at the endpoint itself, or at that part of a datagram. One word each, as they are shown, and no `Option` of a part.
#[derive(Clone, Copy)]
pub enum Layer {
    End,
    Datagram,
    Payload,
    Structure,
}

impl From<Fault> for Refusal {
    ghost from_gives = { λ fault refusal. refusal ≡ Unreadable fault };

    fn from(fault: Fault) -> Refusal {
        Refusal::Unreadable(fault)
    }
}

impl From<datagram::Layer> for Layer {
    ghost from_gives = { λ part layer. layer ≡ layer_of_part part };

    fn from(part: datagram::Layer) -> Layer {
        match part {
            datagram::Layer::Datagram => Layer::Datagram,
            datagram::Layer::Payload => Layer::Payload,
            datagram::Layer::Structure => Layer::Structure,
        }
    }
}

impl Refusal {
    // The number that the outside sees. One case holds a fault, so the cases cannot be numbers themselves, as a `Question` is.
    pub fn number(self) -> u8
        ensures { result ≡ number_of self }
    {
        match self {
            Refusal::StartTooHigh => 1,
            Refusal::NoSuchPlace => 2,
            Refusal::TimeTooHigh => 3,
            Refusal::ClockRanBack => 4,
            Refusal::PlaceHeld => 5,
            Refusal::PeerEnrolled => 6,
            Refusal::PlaceVacant => 7,
            Refusal::BufferTooShort => 8,
            Refusal::BodySize => 9,
            Refusal::NotOnlyMessages => 10,
            Refusal::StillOutstanding => 11,
            Refusal::NumbersSpent => 12,
            Refusal::SenderUnknown => 13,
            Refusal::TooOld => 14,
            Refusal::ReplyTooLong => 15,
            Refusal::Unreadable(fault) => fault.question.number(),
        }
    }

    pub fn layer(self) -> Layer
        ensures { result ≡ layer_of self }
    {
        match self {
            Refusal::Unreadable(fault) => fault.layer.into(),
            _ => Layer::End,
        }
    }

    // counted from the datagram's first octet
    pub fn offset(self) -> usize
        ensures { result ≡ offset_of self }
    {
        match self {
            Refusal::Unreadable(fault) => fault.offset,
            _ => 0,
        }
    }
}
