// The worked example of writing in docs/FORMATS.md. With it stand the theorems of all that is written, apart from the calls, so that a
// caller's proof need not carry them.
ghost use Rattle.std.specs.Prelude.{◌≡◌};
ghost use Rattle.writer.specs.Bodies.{RoundTrip};
ghost use Rattle.writer.specs.Examples.{nack_of_one};
ghost use Rattle.writer.specs.Octets.{OctetsAreWritten};
ghost use Rattle.writer.specs.Runs.{WhatFitsIsWritten};
ghost use Rattle.writer.specs.Values.{written};

// Number 9 with one payload, a Nack of one number.
pub fn nack_of_one() -> [u8; 19]
    ensures octets { result ≡ written nack_of_one }
    ensures back { RoundTrip }
    ensures plain { OctetsAreWritten }
    ensures complete { WhatFitsIsWritten }
{
    *b"\x00\x00\x00\x09\x00\x0A\x08\x09\x00\x09\x02\x01\x02\x03\x04\x05\x02\x06\x07"
}
