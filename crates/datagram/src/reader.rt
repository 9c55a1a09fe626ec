// A datagram with the place up to which it was read, and how many payloads are still to come.
ghost use Rattle.std.specs.Prelude.{◌≡◌};
ghost use Rattle.std.specs.Option.{option_map};
ghost use Rattle.datagram.specs.Results.{map_ok};
ghost use Rattle.datagram.specs.Places.{first_place, next_at, place_after};
ghost use Rattle.datagram.specs.Views.{payload_says, place_says};

use crate::fault::{Fault, Question};
use crate::payload::Payload;

// The datagram stays whole with the place beside it, as faults count from its first octet; how many payloads are to come is what its
// header announced, and not a length of what is there.
#[derive(Clone, Copy)]
pub struct Reader<'d> {
    datagram: &'d [u8],
    at: usize,
    left: usize,
}

impl<'d> Reader<'d> {
    // At the first payload, past the datagram's header of five octets.
    pub(crate) fn start(datagram: &'d [u8], payloads: usize) -> Reader<'d>
        ensures { place_says result ≡ first_place datagram.now payloads }
    {
        Reader {
            datagram,
            at: 5,
            left: payloads,
        }
    }

    // The next payload; `None` where the datagram ends with its last one. A fault leaves the place as it was, so this is no `Iterator`: a
    // `for` would meet it again and never end. In line, as `Payloads::next`, `Payload::read` and `Content::read` are: a caller that looks at
    // one part of a payload does not wait for the others to be put together.
    #[inline(always)]
    pub(crate) fn next(&mut self) -> Result<Option<Payload<'d>>, Fault>
        ensures gives { map_ok (option_map payload_says) result ≡ next_at (place_says self.old) }
        ensures moves { place_says self.new ≡ place_after (place_says self.old) }
    {
        if self.left == 0 {
            if self.at < self.datagram.len() {
                return Err(Question::EndsWithLastPayload.fails_at(self.at));
            }
            return Ok(None);
        }
        let Some(rest) = self.datagram.get(self.at..) else {
            return Err(Question::HoldsPayloadHeader.fails_at(self.at));
        };
        let payload = Payload::read(rest, self.at)?;
        self.at = payload.offset + payload.data.len();
        self.left -= 1;
        Ok(Some(payload))
    }
}
