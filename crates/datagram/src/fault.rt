// The questions that a datagram must pass, and the answer that a failed one gives.
ghost use Rattle.std.specs.Prelude.{◌≡◌};
ghost use Rattle.datagram.specs.Faults.{number_of, layer_of, no};

// Each question by what it asks for, in the order in which they are put. The number is the one that the outside sees.
#[derive(Clone, Copy, Debug, PartialEq, Eq)]
pub enum Question {
    AtMostMaximum = 20,
    HoldsHeader = 21,
    VersionZero = 22,
    HoldsPayloadHeader = 23,
    HoldsPayloadData = 24,
    HoldsFixedPart = 25,
    CountsMeetEnd = 26,
    EndsWithLastPayload = 27,
    AckIsDeserved = 28,
}

impl Question {
    // A method and no `From`: the name says which number it is.
    pub fn number(self) -> u8
        ensures { result ≡ number_of self }
    {
        self as u8
    }

    // The layer at which the question is put.
    fn layer(self) -> Layer
        ensures { result ≡ layer_of self }
    {
        match self {
            Question::AtMostMaximum
            | Question::HoldsHeader
            | Question::VersionZero
            | Question::EndsWithLastPayload
            | Question::AckIsDeserved => Layer::Datagram,
            Question::HoldsPayloadHeader | Question::HoldsPayloadData => Layer::Payload,
            Question::HoldsFixedPart | Question::CountsMeetEnd => Layer::Structure,
        }
    }

    // The answer no, at an offset.
    pub(crate) fn fails_at(self, offset: usize) -> Fault
        ensures { result ≡ no self (layer_of self) offset }
    {
        Fault {
            question: self,
            layer: self.layer(),
            offset,
        }
    }
}

// The part of a datagram at which a question was put.
#[derive(Clone, Copy, Debug, PartialEq, Eq)]
pub enum Layer {
    Datagram,
    Payload,
    Structure,
}

// A question that was answered with no, and where: the offset counts from the datagram's first octet.
#[derive(Clone, Copy, Debug, PartialEq, Eq)]
pub struct Fault {
    pub question: Question,
    pub layer: Layer,
    pub offset: usize,
}
