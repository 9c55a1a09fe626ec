// The types of payload that have a meaning here. (A type is called `kind` in code, where `type` is a word of the language.)
ghost use Rattle.std.specs.Prelude.{◌≡◌};
ghost use Rattle.datagram.specs.Kinds.{number_of, deserving_kind, kind_of};

// The number is the one that a payload's header has.
#[derive(Clone, Copy, Debug, PartialEq, Eq)]
pub enum Kind {
    CallMessage = 1,
    IAmAlive = 3,
    Ack = 4,
    Nack = 5,
    NonStandard = 6,
}

// A type without a meaning here, by its number.
#[derive(Clone, Copy, Debug, PartialEq, Eq)]
pub struct UnsupportedType(pub u8);

impl TryFrom<u8> for Kind {
    type Error = UnsupportedType;

    ghost try_from_gives = { λ number r. r ≡ kind_of number };

    fn try_from(number: u8) -> Result<Kind, UnsupportedType> {
        Ok(match number {
            1 => Kind::CallMessage,
            3 => Kind::IAmAlive,
            4 => Kind::Ack,
            5 => Kind::Nack,
            6 => Kind::NonStandard,
            _ => return Err(UnsupportedType(number)),
        })
    }
}

impl Kind {
    // The way back from `try_from`, by a name that says which number it is.
    pub fn number(self) -> u8
        ensures { result ≡ number_of self }
    {
        self as u8
    }

    // An Ack may be asked for only along with something other than Acks and Nacks.
    pub fn deserves_ack(self) -> bool
        ensures { result ≡ deserving_kind self }
    {
        !matches!(self, Kind::Ack | Kind::Nack)
    }
}
