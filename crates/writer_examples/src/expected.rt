// What the tests look for.
use datagram::Datagram;
use writer::Refusal;

pub const FILLER: u8 = 0xEE;

// Whether a call was refused with that number, its mark at that offset.
pub(crate) fn is_refused<T: Drop>(answer: Result<T, Refusal>, number: u8, mark: usize) -> bool {
    answer.is_err_and(|refusal| refusal.found.number() == number && refusal.offset == mark)
}

// Whether the buffer begins with these octets and goes on as it was.
pub(crate) fn begins(out: &[u8], octets: &[u8]) -> bool {
    out.strip_prefix(octets).is_some_and(is_filler)
}

pub(crate) fn is_filler(octets: &[u8]) -> bool {
    octets.iter().all(|octet| *octet == FILLER)
}

// Whether so many octets of the buffer are read as a datagram.
pub(crate) fn is_read(out: &[u8], size: usize) -> bool {
    out.get(..size)
        .is_some_and(|octets| Datagram::read(octets).is_ok())
}
