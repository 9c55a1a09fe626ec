// A body: payloads up to its end, with no header before them.
ghost use Rattle.std.specs.Prelude.{◌≡◌};
ghost use Rattle.std.specs.Iterator.{YieldsFirstBy, item_count};
ghost use Rattle.std.specs.Option.{option_map};
ghost use Rattle.datagram.specs.Bodies.{read_body};
ghost use Rattle.datagram.specs.Places.{next_in, rest_after};
ghost use Rattle.datagram.specs.Results.{map_ok};
ghost use Rattle.datagram.specs.Views.{payload_says, rest_says, body_says};

use crate::fault::{Fault, Question};
use crate::header::MAXIMUM;
use crate::payload::Payload;

// The octets of the header that a body is to stand under; offsets count them.
const HEADER: usize = 5;

// The payloads that are still to come, from the index `at` on. What follows a fault does not come, and a body that was read has none.
#[derive(Clone, Copy)]
pub struct Body<'d> {
    octets: &'d [u8],
    at: usize,
}

impl<'d> Body<'d> {
    // Reads every payload before any is handed out, and copies nothing.
    pub fn read(octets: &'d [u8]) -> Result<Body<'d>, Fault>
        ensures { map_ok body_says result ≡ read_body octets.now }
    {
        if octets.len() > MAXIMUM - HEADER {
            return Err(Question::AtMostMaximum.fails_at(MAXIMUM));
        }
        let body = Body { octets, at: 0 };
        let mut ahead = body;
        while let Some(_) = ahead.take_payload()? {}
        Ok(body)
    }

    // The next payload; `None` at the body's end. A fault leaves the place as it was.
    fn take_payload(&mut self) -> Result<Option<Payload<'d>>, Fault>
        ensures gives { map_ok (option_map payload_says) result ≡ next_in (rest_says self.old) }
        ensures moves { rest_says self.new ≡ rest_after (rest_says self.old) }
    {
        let Some(rest @ [_, ..]) = self.octets.get(self.at..) else {
            return Ok(None);
        };
        let payload = Payload::read(rest, self.at + HEADER)?;
        self.at = payload.offset + payload.data.len() - HEADER;
        Ok(Some(payload))
    }
}

impl<'d> Iterator for Body<'d> {
    type Item = Payload<'d>;

    ghost remaining = { item_count body_says };

    ghost next_gives = { YieldsFirstBy payload_says body_says };

    fn next(&mut self) -> Option<Payload<'d>> {
        self.take_payload().ok().flatten()
    }
}
