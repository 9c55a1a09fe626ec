// A datagram that has passed every question.
ghost use Rattle.std.specs.Prelude.{◌≡◌};
ghost use Rattle.datagram.specs.Results.{map_ok};
ghost use Rattle.datagram.specs.Datagrams.{some_deserves, read};
ghost use Rattle.datagram.specs.Laws.{PayloadsLieEndToEnd};
ghost use Rattle.datagram.specs.Places.{payloads_ahead};
ghost use Rattle.datagram.specs.Views.{place_says, datagram_says};

use crate::fault::{Fault, Question};
use crate::header::Header;
use crate::payloads::Payloads;
use crate::reader::Reader;

#[derive(Clone, Copy)]
pub struct Datagram<'d> {
    pub number: u32,
    pub wants_ack: bool,
    pub payloads: Payloads<'d>,
}

// Whether some payload to come deserves an Ack, unless one of them is refused.
fn check_payloads(mut reader: Reader) -> Result<bool, Fault>
    ensures { result ≡ map_ok some_deserves (payloads_ahead (place_says reader.entry)) }
{
    let mut deserving = false;
    while let Some(payload) = reader.next()? {
        deserving = deserving || payload.deserves_ack();
    }
    Ok(deserving)
}

impl<'d> Datagram<'d> {
    // Puts every question before anything is handed out, and copies nothing.
    pub fn read(octets: &'d [u8]) -> Result<Datagram<'d>, Fault>
        ensures gives { map_ok datagram_says result ≡ read octets.now }
        ensures law { PayloadsLieEndToEnd octets.now }
    {
        let header = Header::read(octets)?;
        let reader = Reader::start(octets, header.payloads);
        let deserving = check_payloads(reader)?;
        if header.wants_ack && !deserving {
            return Err(Question::AckIsDeserved.fails_at(0));
        }
        Ok(Datagram {
            number: header.number,
            wants_ack: header.wants_ack,
            payloads: Payloads::from_here(reader),
        })
    }
}
