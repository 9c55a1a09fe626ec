// A datagram comes in.
ghost use Rattle.std.specs.Prelude.{◌≡◌, ◌<◌, ◌≤◌, ◌||◌, ◌++◌, length, drop, true, nat_le, IfOk};
ghost use Rattle.arrivals.specs.Meaning.{judged, is_fresh};
ghost use Rattle.datagram.specs.Results.{map_ok};
ghost use Rattle.datagram.specs.Views.{payloads_say};
ghost use Rattle.endpoint.specs.Arrives.{arrive, hearing, settles, sender_place};
ghost use Rattle.endpoint.specs.Asking.{sender_asks, reply_asks};
ghost use Rattle.endpoint.specs.Ends.{site_at, outstanding_at};
ghost use Rattle.endpoint.specs.Parts.{reply_says};
ghost use Rattle.endpoint.specs.Replies.{is_empty, reply_octets, reply_sent, replying};
ghost use Rattle.endpoint.specs.Steps.{Does, first_no, passes};
ghost use Rattle.endpoint.specs.Views.{end_says, arrival_says};
ghost use Rattle.endpoint.specs.Timing.{numbers_left};
ghost use Rattle.writer.specs.Values.{every, content_within};

use super::Endpoint;
use crate::answer::{Sent, Settled};
use crate::arrival::Arrival;
use crate::messages::Messages;
use crate::peer::Peer;
use crate::refusal::Refusal;
use crate::reply::Reply;
use arrivals::{ArrivalBook, Judgement};
use datagram::{Datagram, MAXIMUM};

impl<B: ArrivalBook> Endpoint<B> {
    // The questions before the datagram is read. The answer is the sender's place.
    fn check_sender(&self, time: u64, sender: &Peer, room: usize) -> Result<usize, Refusal>
        ensures answer { result ≡ passes (first_no (sender_asks (end_says B.ArrivalBook.seen self.now) time sender.now room)) (sender_place (end_says B.ArrivalBook.seen self.now) sender.now) }
        ensures within { IfOk result (λ place. place < 32) }
    {
        self.check_time(time)?;
        let Some(place) = self.place_of(sender) else {
            return Err(Refusal::SenderUnknown);
        };
        if room < MAXIMUM {
            return Err(Refusal::BufferTooShort);
        }
        Ok(place)
    }

    // The questions after it is read. The answer is whether it is fresh.
    fn check_reply(&self, place: usize, number: u32, reply: &Reply) -> Result<bool, Refusal>
        ensures { result ≡ passes (first_no (reply_asks B.ArrivalBook.depth (end_says B.ArrivalBook.seen self.now) place number (reply_says reply.now))) (is_fresh (judged B.ArrivalBook.depth (B.ArrivalBook.seen self.now.book) place number)) }
    {
        let judgement = self.book.judge(place, number);
        if judgement == Judgement::Old {
            return Err(Refusal::TooOld);
        }
        if !reply.fits() {
            return Err(Refusal::ReplyTooLong);
        }
        if !reply.is_empty() && !self.numbering.is_left() {
            return Err(Refusal::NumbersSpent);
        }
        Ok(judgement == Judgement::Fresh)
    }

    // Notes the number, and lets the neighbour be heard.
    fn hear(&mut self, place: usize, time: u64, fresh: bool, datagram: Datagram) -> Option<Settled>
        requires { place < 32 }
        ensures settled { result ≡ settles fresh (outstanding_at (site_at (end_says B.ArrivalBook.seen self.old) place)) (payloads_say datagram.entry.payloads) }
        ensures after { end_says B.ArrivalBook.seen self.new ≡ hearing B.ArrivalBook.depth (end_says B.ArrivalBook.seen self.old) place time datagram.entry.number result }
    {
        self.latest = time;
        self.book.note(place, datagram.number);
        let Some(neighbour) = &mut self.places[place] else {
            return None;
        };
        neighbour.hear(time, fresh, datagram.payloads)
    }

    // Writes the reply, if one is due.
    fn reply(&mut self, reply: &Reply, output: &mut [u8]) -> Option<Sent>
        requires room { 1024 ≤ length output.old }
        requires inside { every content_within (reply_says reply.now) ≡ true }
        requires fits { nat_le (length (reply_octets (end_says B.ArrivalBook.seen self.old).next (reply_says reply.now))) 1024 ≡ true }
        requires left { (is_empty (reply_says reply.now) || numbers_left (end_says B.ArrivalBook.seen self.old).given) ≡ true }
        ensures answer { result ≡ reply_sent (end_says B.ArrivalBook.seen self.old).next (reply_says reply.now) }
        ensures after { end_says B.ArrivalBook.seen self.new ≡ replying (reply_says reply.now) (end_says B.ArrivalBook.seen self.old) }
        ensures buffer { output.new ≡ reply_octets (end_says B.ArrivalBook.seen self.old).next (reply_says reply.now) ++ drop (length (reply_octets (end_says B.ArrivalBook.seen self.old).next (reply_says reply.now))) output.old }
    {
        if reply.is_empty() {
            return None;
        }
        let number = self.numbering.give();
        let size = reply.write(number, output);
        Some(Sent { number, size })
    }

    pub fn arrive<'d>(
        &mut self,
        time: u64,
        sender: Peer,
        octets: &'d [u8],
        output: &mut [u8],
    ) -> Result<Arrival<'d>, Refusal>
        ensures { Does (arrive B.ArrivalBook.depth (end_says B.ArrivalBook.seen self.old) time sender octets.now (length output.old)) (map_ok arrival_says result) (end_says B.ArrivalBook.seen self.new) output.old output.new }
    {
        let place = self.check_sender(time, &sender, output.len())?;
        let datagram = Datagram::read(octets)?;
        let reply = Reply::to(datagram);
        let fresh = self.check_reply(place, datagram.number, &reply)?;
        let settled = self.hear(place, time, fresh, datagram);
        let reply = self.reply(&reply, output);
        Ok(Arrival {
            fresh,
            payloads: Messages::of(fresh, datagram.payloads),
            settled,
            reply,
        })
    }
}
