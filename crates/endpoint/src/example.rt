// The worked example of docs/ENDPOINT.md: a message that is sent, sent again and given up, or received and acknowledged.
ghost use Rattle.std.specs.Prelude.{◌≡◌};
ghost use Rattle.endpoint.specs.Examples.{Examples, message};

// Number 16,777,215, an Ack wanted, with one payload: a call message of two octets.
pub fn last_number_sent() -> [u8; 12]
    ensures octets { result ≡ message }
    ensures examples { Examples }
{
    *b"\x01\xff\xff\xff\x00\x02\x00\x01\x00\x02\xab\xcd"
}
