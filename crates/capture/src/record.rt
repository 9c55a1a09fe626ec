// One record of a capture: who sent a datagram, when, and the datagram.
ghost use Rattle.std.specs.Prelude.{◌≡◌};
ghost use Rattle.std.specs.Option.{option_map};
ghost use Rattle.capture.specs.Records.{body_of};
ghost use Rattle.capture.specs.Views.{record_says};

// What a length field may say at most.
const LONGEST: usize = 4096;

// The kind of a record that holds a datagram. There is no other, and an enum of kinds would have one case.
const DATAGRAM: u16 = 1;

// `datagram` is a part of the caller's octets, sound or not.
#[derive(Clone, Copy)]
pub struct Record<'f> {
    pub address: [u8; 4],
    pub port: u16,
    pub seconds: u32,
    pub datagram: &'f [u8],
}

impl<'f> Record<'f> {
    // `body` is what a length field counts: kind, address, port, seconds and datagram.
    pub(crate) fn read(body: &'f [u8]) -> Option<Record<'f>>
        ensures { option_map record_says result ≡ body_of body.now }
    {
        if body.len() > LONGEST {
            return None;
        }
        let &[
            k0,
            k1,
            a0,
            a1,
            a2,
            a3,
            p0,
            p1,
            s0,
            s1,
            s2,
            s3,
            ref datagram @ ..,
        ] = body
        else {
            return None;
        };
        if u16::from_le_bytes([k0, k1]) != DATAGRAM {
            return None;
        }
        Some(Record {
            address: [a0, a1, a2, a3],
            port: u16::from_le_bytes([p0, p1]),
            seconds: u32::from_le_bytes([s0, s1, s2, s3]),
            datagram,
        })
    }
}
