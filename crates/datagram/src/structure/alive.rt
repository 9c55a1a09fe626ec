// An I-Am-Alive: its sender is there.
ghost use Rattle.std.specs.Prelude.{◌≡◌};
ghost use Rattle.std.specs.Option.{option_map};
ghost use Rattle.datagram.specs.Results.{map_ok};
ghost use Rattle.datagram.specs.Structures.{cookie_of, alive_of};
ghost use Rattle.datagram.specs.Views.{alive_says};

use crate::fault::{Fault, Question};

#[derive(Clone, Copy)]
pub struct Alive<'d> {
    pub validity: u16,
    pub wants_reply: bool,
    pub cookie: Option<&'d [u8]>,
}

impl<'d> Alive<'d> {
    pub(crate) fn read(data: &'d [u8], offset: usize) -> Result<Alive<'d>, Fault>
        ensures { map_ok alive_says result ≡ alive_of «data».now offset }
    {
        let &[v1, v0, c1, c0, ref cookie @ ..] = data else {
            return Err(Question::HoldsFixedPart.fails_at(offset));
        };
        let sized = u16::from_be_bytes([c1, c0]);
        if cookie.len() != (sized >> 1) as usize {
            return Err(Question::CountsMeetEnd.fails_at(offset));
        }
        Ok(Alive {
            validity: u16::from_be_bytes([v1, v0]),
            wants_reply: sized & 1 == 1,
            // A cookie of length 0 is an absent one.
            cookie: (!cookie.is_empty()).then_some(cookie),
        })
    }
}
