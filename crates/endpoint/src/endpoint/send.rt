// A message goes out.
ghost use Rattle.std.specs.Prelude.{◌≡◌, ◌<◌, ◌≤◌, ◌^◌, not, length, IfOk};
ghost use Rattle.endpoint.specs.Sends.{awaits, send, send_asks};
ghost use Rattle.endpoint.specs.Ends.{site_at, outstanding_at, is_none};
ghost use Rattle.endpoint.specs.Steps.{Does, first_no, passes};
ghost use Rattle.endpoint.specs.Timing.{numbers_left};
ghost use Rattle.endpoint.specs.Views.{end_says};
ghost use Rattle.datagram.specs.Bodies.{body_payloads};
ghost use Rattle.writer.specs.Bodies.{how_many};

use super::Endpoint;
use crate::answer::Sent;
use crate::body::{check_body, write_message};
use crate::refusal::Refusal;
use crate::timers::STANDING;
use arrivals::ArrivalBook;

impl<B: ArrivalBook> Endpoint<B> {
    fn is_outstanding(&self, place: usize) -> bool
        requires { place < 32 }
        ensures { result ≡ not (is_none (outstanding_at (site_at (end_says B.ArrivalBook.seen self.now) place))) }
    {
        self.places[place]
            .as_ref()
            .is_some_and(|neighbour| neighbour.is_waiting())
    }

    // The answer is how many payloads the body has.
    fn check_sending(
        &self,
        place: usize,
        time: u64,
        wants_ack: bool,
        body: &[u8],
        room: usize,
    ) -> Result<usize, Refusal>
        ensures answer { result ≡ passes (first_no (send_asks numbers_left (end_says B.ArrivalBook.seen self.now) place time wants_ack body.now room)) (how_many (body_payloads body.now)) }
        ensures size { IfOk result (λ n. (1 ≤ n) × (n ≤ 256) × (5 ≤ length body.now) × (length body.now ≤ 507)) }
    {
        self.check_writing(place, time, room)?;
        let payloads = check_body(body)?;
        if wants_ack && self.is_outstanding(place) {
            return Err(Refusal::StillOutstanding);
        }
        if !self.numbering.is_left() {
            return Err(Refusal::NumbersSpent);
        }
        Ok(payloads)
    }

    // Keeps a message for which an Ack is wanted.
    fn await_ack(&mut self, place: usize, time: u64, number: u32, message: &[u8])
        requires place { place < 32 }
        requires early { time < 2 ^ 48 }
        requires size { length message.now ≤ 512 }
        ensures { end_says B.ArrivalBook.seen self.new ≡ awaits (end_says B.ArrivalBook.seen self.old) place time number message.now }
    {
        let Some(neighbour) = &mut self.places[place] else {
            return;
        };
        neighbour.keep(number, time + STANDING.first, message);
    }

    pub fn send(
        &mut self,
        place: usize,
        time: u64,
        wants_ack: bool,
        body: &[u8],
        output: &mut [u8],
    ) -> Result<Sent, Refusal>
        ensures { Does (send (end_says B.ArrivalBook.seen self.old) place time wants_ack body.now (length output.old)) result (end_says B.ArrivalBook.seen self.new) output.old output.new }
    {
        let payloads = self.check_sending(place, time, wants_ack, body, output.len())?;
        let number = self.numbering.give();
        let size = write_message(number, wants_ack, payloads, body, output);
        self.latest = time;
        if wants_ack {
            self.await_ack(place, time, number, &output[..size]);
        }
        Ok(Sent { number, size })
    }
}
