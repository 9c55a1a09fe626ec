// The worked example of docs/FORMATS.md: the definitions read it, and three near it that fail, as they should.
ghost use Rattle.std.specs.Prelude.{◌≡◌};
ghost use Rattle.datagram.specs.Examples.{Examples, ack_of_five_octets};

// Number 9 with one payload, an Ack of 5.
pub fn ack_of_five() -> [u8; 14]
    ensures octets { result ≡ ack_of_five_octets 0x00 0x00 }
    ensures examples { Examples }
{
    *b"\x00\x00\x00\x09\x00\x08\x00\x00\x00\x04\x02\x00\x00\x05"
}
