// The parts of a datagram that have a fixed size.
ghost use Rattle.std.specs.Prelude.{◌≡◌, ◌+◌, ◌*◌, ◌^◌, ◌<◌, ◌∷◌, ◌++◌};
ghost use Rattle.datagram.specs.Layout.{octets16, octets24, flag, header_octets};
ghost use Rattle.datagram.specs.Kinds.{number_of};

use datagram::Kind;

// A number has 24 bits.
pub(crate) fn number_octets(number: u32) -> [u8; 3]
    requires { number < 2 ^ 24 }
    ensures { result ≡ octets24 number }
{
    let [_, n2, n1, n0] = number.to_be_bytes();
    [n2, n1, n0]
}

// The header of a datagram, with COUNT still 0.
pub(crate) fn header(number: u32, wants_ack: bool) -> [u8; 5]
    requires { number < 2 ^ 24 }
    ensures { result ≡ header_octets number wants_ack 0 }
{
    let [n2, n1, n0] = number_octets(number);
    [wants_ack as u8, n2, n1, n0, 0]
}

pub(crate) fn payload_header(kind: Kind, crv: u16, octets: u16) -> [u8; 5]
    ensures { result ≡ 2 * number_of kind ∷ (octets16 crv ++ octets16 octets) }
{
    let [c1, c0] = crv.to_be_bytes();
    let [l1, l0] = octets.to_be_bytes();
    [2 * kind.number(), c1, c0, l1, l0]
}

// The fixed part of an I-Am-Alive.
pub(crate) fn alive_header(validity: u16, cookie: u16, wants_reply: bool) -> [u8; 4]
    requires { cookie < 2 ^ 15 }
    ensures { result ≡ octets16 validity ++ octets16 (2 * cookie + flag wants_reply) }
{
    let [v1, v0] = validity.to_be_bytes();
    let [c1, c0] = (2 * cookie + wants_reply as u16).to_be_bytes();
    [v1, v0, c1, c0]
}
