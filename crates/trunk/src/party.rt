// One of the two ends, with what it has of the other.
ghost use Rattle.std.specs.Prelude.{◌≡◌, ℕ, min, cond, Some, Ok, map, IfOk, nat_lt};
ghost use Rattle.datagram.specs.Results.{map_ok, ask};
ghost use Rattle.endpoint.specs.Calls as calls;
ghost use Rattle.endpoint.specs.Ends.{same_peer};
ghost use Rattle.trunk.specs.Parties.{new_party, Enters, Takes, party_says};
ghost use Rattle.trunk.specs.Two.{is_there, if_enrolled};
ghost use Rattle.trunk.specs.Views as orders;
ghost use Rattle.trunk.specs.Views.{side_says, call_says, entry_says};

use crate::call::Call;
use crate::log::{Answer, Arrival, Entry, Error, line_at};
use crate::setting::Side;
use arrivals::ArrivalBook;
use datagram::MAXIMUM;
use endpoint::{Endpoint, Peer, Refusal, Role};
use std::alloc::{AllocError, Global};

// `peer` is how it knows the other, and `place` where it has it, once it is enrolled.
#[derive(Drop)]
pub(crate) struct Party<B> {
    endpoint: Endpoint<B>,
    side: Side,
    peer: Peer,
    place: Option<usize>,
}

// An output buffer. Of one that is longer than a datagram the endpoint never sees more than that it has room.
fn output_of(alloc: Global, room: usize) -> Result<Vec<u8>, AllocError>
    ensures { IfOk result (λ output. output.len ≡ min room 1024) }
{
    vec![in alloc; 0; room.min(MAXIMUM)]
}

impl<B: ArrivalBook> Party<B> {
    pub(crate) fn open(side: Side, start: u32, peer: Peer) -> Result<Party<B>, Error>
        ensures { map_ok (party_says B.ArrivalBook.seen) result ≡ ask (nat_lt start 16777216) (Error.StartRefused side) (Ok (new_party (side_says side) peer start)) }
    {
        let Ok(endpoint) = Endpoint::open(start) else {
            return Err(Error::StartRefused(side));
        };
        Ok(Party {
            endpoint,
            side,
            peer,
            place: None,
        })
    }

    fn has_other_at(&self, place: usize) -> bool
        ensures { result ≡ is_there self.now.place place }
    {
        self.place == Some(place)
    }

    // Where it has the other, once an enrolling was answered so.
    fn place_after(&self, place: usize, peer: &Peer, answer: &Result<(), Refusal>) -> Option<usize>
        ensures { result ≡ cond (same_peer peer.now self.now.peer) (if_enrolled (map_ok (λ _. calls.enrolled) answer.now) (Some place) self.now.place) self.now.place }
    {
        if *peer == self.peer && answer.is_ok() {
            Some(place)
        } else {
            self.place
        }
    }

    fn enrol(&mut self, alloc: Global, place: usize, time: u64, peer: Peer, role: Role) -> Entry
        ensures { Enters B.ArrivalBook.depth (party_says B.ArrivalBook.seen self.old) (calls.enrols place time peer role) 0 (entry_says result) (party_says B.ArrivalBook.seen self.new) }
    {
        let answer = self.endpoint.enrol(place, time, peer, role);
        self.place = self.place_after(place, &peer, &answer);
        let answer = answer.map(|()| Answer::Enrolled);
        Entry::new(self.side, answer, Vec::new(alloc), false)
    }

    fn send(
        &mut self,
        alloc: Global,
        place: usize,
        time: u64,
        wants_ack: bool,
        body: &[u8],
        room: usize,
    ) -> Result<Entry, AllocError>
        ensures { IfOk result (λ entry. Enters B.ArrivalBook.depth (party_says B.ArrivalBook.seen self.old) (calls.sends place time wants_ack body.now room) 0 (entry_says entry) (party_says B.ArrivalBook.seen self.new)) }
    {
        let mut output = output_of(alloc, room)?;
        let answer = self
            .endpoint
            .send(place, time, wants_ack, body, &mut output);
        let answer = answer.map(Answer::Sent);
        Entry::new(self.side, answer, output, self.has_other_at(place)).fitted(alloc)
    }

    fn tick(
        &mut self,
        alloc: Global,
        place: usize,
        time: u64,
        room: usize,
    ) -> Result<Entry, AllocError>
        ensures { IfOk result (λ entry. Enters B.ArrivalBook.depth (party_says B.ArrivalBook.seen self.old) (calls.ticks place time room) 0 (entry_says entry) (party_says B.ArrivalBook.seen self.new)) }
    {
        let mut output = output_of(alloc, room)?;
        let answer = self.endpoint.tick(place, time, &mut output);
        let answer = answer.map(Answer::Ticked);
        Entry::new(self.side, answer, output, self.has_other_at(place)).fitted(alloc)
    }

    // A datagram comes.
    fn receive(
        &mut self,
        alloc: Global,
        time: u64,
        sender: Peer,
        octets: &[u8],
        room: usize,
    ) -> Result<Entry, AllocError>
        ensures { IfOk result (λ entry. (from : ℕ) → Enters B.ArrivalBook.depth (party_says B.ArrivalBook.seen self.old) (calls.arrives time sender octets.now room) from (entry_says entry) (party_says B.ArrivalBook.seen self.new)) }
    {
        let mut output = output_of(alloc, room)?;
        let arrival = self.endpoint.arrive(time, sender, octets, &mut output);
        let answer = Answer::of_arrival(alloc, arrival)?;
        Entry::new(self.side, answer, output, sender == self.peer).fitted(alloc)
    }

    // Under the other's address, a copy of the datagram that it wrote in that entry.
    fn arrive(
        &mut self,
        alloc: Global,
        log: &[Entry],
        time: u64,
        entry: usize,
        room: usize,
    ) -> Result<Entry, Error>
        ensures { Takes B.ArrivalBook.depth (party_says B.ArrivalBook.seen self.old) (map entry_says log.now) (orders.arrive time entry room) (map_ok entry_says result) (party_says B.ArrivalBook.seen self.new) }
    {
        let Some(datagram) = line_at(log, entry, self.side.other()) else {
            return Err(Error::NoSuchDatagram(log.len()));
        };
        Ok(self.receive(alloc, time, self.peer, datagram, room)?)
    }

    // Under anyone else's address, anything.
    fn hear(
        &mut self,
        alloc: Global,
        log: &[Entry],
        time: u64,
        sender: Peer,
        octets: &[u8],
        room: usize,
    ) -> Result<Entry, Error>
        ensures { Takes B.ArrivalBook.depth (party_says B.ArrivalBook.seen self.old) (map entry_says log.now) (orders.hear time sender octets.now room) (map_ok entry_says result) (party_says B.ArrivalBook.seen self.new) }
    {
        if sender == self.peer {
            return Err(Error::OthersAddress(log.len()));
        }
        Ok(self.receive(alloc, time, sender, octets, room)?)
    }

    // Takes a call, which is either another entry of the log, or does not belong.
    pub(crate) fn take(&mut self, alloc: Global, log: &[Entry], call: &Call) -> Result<Entry, Error>
        ensures { Takes B.ArrivalBook.depth (party_says B.ArrivalBook.seen self.old) (map entry_says log.now) (call_says call.now) (map_ok entry_says result) (party_says B.ArrivalBook.seen self.new) }
    {
        match call {
            Call::Enrol {
                place,
                time,
                peer,
                role,
            } => Ok(self.enrol(alloc, *place, *time, *peer, *role)),
            Call::Send {
                place,
                time,
                wants_ack,
                body,
                room,
            } => Ok(self.send(alloc, *place, *time, *wants_ack, body, *room)?),
            Call::Tick { place, time, room } => Ok(self.tick(alloc, *place, *time, *room)?),
            Call::Arrive { time, entry, room } => self.arrive(alloc, log, *time, *entry, *room),
            Call::Hear {
                time,
                sender,
                octets,
                room,
            } => self.hear(alloc, log, *time, *sender, octets, *room),
        }
    }
}
