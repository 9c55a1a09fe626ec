// The worked example of docs/FORMATS.md: the definitions make its sheet, to the octet.
ghost use Rattle.std.specs.Prelude.{◌≡◌};
ghost use Rattle.callsheet.specs.Examples.{Examples, two_records_octets};

// A call message of 10.0.0.7, and a datagram that is too short.
pub fn two_records() -> [u8; 43]
    ensures octets { result ≡ two_records_octets }
    ensures examples { Examples }
{
    *b"\x18\x00\x01\x00\x0A\x00\x00\x07\xB8\x06\x3C\x00\x00\x00\x01\x00\x00\x05\x00\x02\x00\x01\x00\x02\xAB\xCD\x0F\x00\x01\x00\x0A\x00\x00\x07\xB8\x06\x3D\x00\x00\x00\x00\x00\x00"
}
