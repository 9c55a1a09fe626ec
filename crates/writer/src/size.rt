// How many octets of data a payload would have, and how long its parts may be.
ghost use Rattle.std.specs.Prelude.{◌≡◌, ◌+◌, min, nat_lt};
ghost use Rattle.writer.specs.Pieces.{Measures};
ghost use Rattle.writer.specs.Values.{is_field16};

use datagram::MAXIMUM;

// More than any datagram holds: a size is counted no further. (What is cast to a narrower field was asked for its limit before.)
const OVER: usize = MAXIMUM + 1;

// The length of a cookie has fifteen bits, that of an OID sixteen.
pub const LONGEST_COOKIE: usize = 32767;

pub const LONGEST_OID: usize = 65535;

pub(crate) fn capped(octets: usize) -> usize
    ensures { result ≡ min 1025 octets }
{
    octets.min(OVER)
}

pub(crate) fn alive_size(cookie: usize) -> usize
    ensures { Measures result (4 + cookie) }
{
    4 + capped(cookie)
}

pub(crate) fn non_standard_size(oid: usize, free: usize) -> usize
    ensures { Measures result (2 + (oid + free)) }
{
    2 + capped(oid) + capped(free)
}
