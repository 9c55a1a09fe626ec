// Calls on endpoints over both books. A trial has one endpoint with its output buffer, and tells what a call answers in numbers.
use arrivals::{ArrivalBook, ListBook, MaskBook};
use endpoint::{Arrival, Endpoint, Outcome, Peer, Refusal, Role, Ticked};
use std::process::Abort;

const LEFT: Peer = Peer {
    address: [10, 0, 0, 1],
    port: 1720,
};

const RIGHT: Peer = Peer {
    address: [10, 0, 0, 2],
    port: 1720,
};

const LAST_NUMBER: u32 = 16_777_215;

const LAST_TIME: u64 = 281_474_976_710_655;

// A call message of two octets under the call reference 1, and its datagram under the last number, an Ack wanted.
const BODY: [u8; 7] = *b"\x02\x00\x01\x00\x02\xab\xcd";

const MESSAGE: [u8; 12] = *b"\x01\xff\xff\xff\x00\x02\x00\x01\x00\x02\xab\xcd";

const ACK: [u8; 14] = *b"\x00\x00\x00\x00\x00\x08\x00\x00\x00\x04\x02\xff\xff\xff";

#[derive(Drop)]
struct Trial<B> {
    end: Endpoint<B>,
    output: [u8; 1024],
}

// What was refused, by its number, and what was written, by its size, or what a tick did.
#[derive(Clone, Copy, PartialEq, Eq)]
enum Said {
    Refused(u8),
    Wrote(usize),
    Gave(u32),
    Nothing,
}

fn ticked(answer: Result<Ticked, Refusal>) -> Said {
    match answer {
        Ok(Ticked::Resent(sent) | Ticked::KeptAlive(sent)) => Said::Wrote(sent.size),
        Ok(Ticked::Unanswered(number)) => Said::Gave(number),
        Ok(Ticked::Silent | Ticked::Idle) => Said::Nothing,
        Err(refusal) => Said::Refused(refusal.number()),
    }
}

fn arrived(answer: Result<Arrival, Refusal>) -> Said {
    match answer {
        Ok(arrival) => arrival
            .reply
            .map_or(Said::Nothing, |reply| Said::Wrote(reply.size)),
        Err(refusal) => Said::Refused(refusal.number()),
    }
}

impl<B: ArrivalBook + Drop> Trial<B> {
    fn open(rt: &impl Abort, start: u32) -> Trial<B> {
        Trial {
            end: Endpoint::open(start)
                .ok()
                .expect(rt, "an endpoint that opens"),
            output: [7; 1024],
        }
    }

    fn enrol(&mut self, place: usize, time: u64, peer: Peer) -> Said {
        match self.end.enrol(place, time, peer, Role::Slave) {
            Ok(()) => Said::Nothing,
            Err(refusal) => Said::Refused(refusal.number()),
        }
    }

    fn send(&mut self, wants_ack: bool, body: &[u8]) -> Said {
        match self.end.send(0, 0, wants_ack, body, &mut self.output) {
            Ok(sent) => Said::Wrote(sent.size),
            Err(refusal) => Said::Refused(refusal.number()),
        }
    }

    fn tick(&mut self, place: usize, time: u64) -> Said {
        ticked(self.end.tick(place, time, &mut self.output))
    }

    fn tick_in_little_room(&mut self) -> Said {
        ticked(self.end.tick(0, 0, &mut [7; 1023]))
    }

    fn arrive(&mut self, sender: Peer, octets: &[u8]) -> Said {
        arrived(self.end.arrive(0, sender, octets, &mut self.output))
    }

    fn wrote(&self, octets: &[u8]) -> bool {
        self.output.starts_with(octets) && self.output.get(octets.len()) == Some(&7)
    }
}

// The left end, which gives the last number first and has the right one at place 0.
fn ready<B: ArrivalBook + Drop>(rt: &impl Abort) -> Trial<B> {
    let mut left = Trial::open(rt, LAST_NUMBER);
    assert!(rt; left.enrol(0, 0, RIGHT) == Said::Nothing);
    left
}

// A message is sent again when it is due, three times, and then given up.
fn given_up<B: ArrivalBook + Drop>(rt: &impl Abort) {
    let mut left = ready::<B>(rt);
    assert!(rt; left.send(true, &BODY) == Said::Wrote(12) && left.wrote(&MESSAGE));
    assert!(rt; left.tick(0, 999) == Said::Nothing);
    for due in [1000, 4000, 7000] {
        left.output = [7; 1024];
        assert!(rt; left.tick(0, due) == Said::Wrote(12) && left.wrote(&MESSAGE));
    }
    assert!(rt; left.tick(0, 9999) == Said::Nothing);
    assert!(rt; left.tick(0, 10_000) == Said::Gave(LAST_NUMBER));
}

#[test]
fn sent_again_and_given_up(rt: HostRuntime) {
    given_up::<MaskBook>(&rt);
    given_up::<ListBook>(&rt);
}

// Whether an arrival hands out the message's payload and no other, or nothing.
fn hands_out(arrival: &Arrival) -> bool {
    let mut payloads = arrival.payloads;
    let is_message = payloads.next().is_some_and(|payload| {
        payload.crv == 1 && payload.offset == 10 && payload.data == [0xab, 0xcd].as_slice()
    });
    is_message && payloads.next().is_none()
}

fn hands_out_nothing(arrival: &Arrival) -> bool {
    let mut payloads = arrival.payloads;
    payloads.next().is_none()
}

// A message arrives, and is handed out once.
fn received<B: ArrivalBook + Drop>(rt: &impl Abort) {
    let mut right = Trial::<B>::open(rt, 0);
    assert!(rt; right.enrol(5, 0, LEFT) == Said::Nothing);
    let first = right.end.arrive(40, LEFT, &MESSAGE, &mut right.output);
    assert!(rt; first.is_ok_and(|arrival| arrival.fresh && hands_out(&arrival)));
    assert!(rt; right.wrote(&ACK));
    let again = right.end.arrive(41, LEFT, &MESSAGE, &mut right.output);
    assert!(rt; again.is_ok_and(|arrival| !arrival.fresh && hands_out_nothing(&arrival)));
}

fn is_acknowledged(arrival: &Arrival) -> bool {
    arrival.settled.is_some_and(|settled| {
        settled.number == LAST_NUMBER && matches!(settled.outcome, Outcome::Acknowledged)
    })
}

// Its Ack settles it once.
fn settled<B: ArrivalBook + Drop>(rt: &impl Abort) {
    let mut left = ready::<B>(rt);
    assert!(rt; left.send(true, &BODY) == Said::Wrote(12));
    let answer = left.end.arrive(80, RIGHT, &ACK, &mut left.output);
    assert!(rt; answer.is_ok_and(|arrival| is_acknowledged(&arrival)));
    assert!(rt; left.tick(0, 1000) == Said::Nothing);
}

#[test]
fn received_and_acknowledged(rt: HostRuntime) {
    received::<MaskBook>(&rt);
    received::<ListBook>(&rt);
    settled::<MaskBook>(&rt);
    settled::<ListBook>(&rt);
}

#[test]
fn edges_of_enrolling(rt: HostRuntime) {
    let mut left = ready::<MaskBook>(&rt);
    assert!(&rt; left.enrol(32, 0, LEFT) == Said::Refused(2));
    assert!(&rt; left.enrol(31, LAST_TIME + 1, LEFT) == Said::Refused(3));
    assert!(&rt; left.enrol(0, 0, LEFT) == Said::Refused(5));
    assert!(&rt; left.enrol(31, 0, RIGHT) == Said::Refused(6));
    assert!(&rt; left.enrol(31, LAST_TIME, LEFT) == Said::Nothing);
    assert!(&rt; left.tick(0, 0) == Said::Refused(4));
}

#[test]
fn edges_of_the_others(rt: HostRuntime) {
    let mut left = ready::<MaskBook>(&rt);
    assert!(&rt; left.tick(1, 0) == Said::Refused(7));
    assert!(&rt; left.tick_in_little_room() == Said::Refused(8));
    assert!(&rt; left.send(false, &[]) == Said::Refused(9));
    assert!(&rt; left.send(false, &[2, 0, 1, 0, 0, 7]) == Said::Refused(23));
    assert!(&rt; left.send(false, &[3, 0, 1, 0, 0]) == Said::Refused(10));
    assert!(&rt; left.arrive(LEFT, &ACK) == Said::Refused(13));
    assert!(&rt; left.arrive(RIGHT, &[]) == Said::Refused(21));
    assert!(&rt; left.output == [7; 1024]);
}

// The largest body is 507 octets, and fills a datagram of 512.
#[test]
fn largest_body(rt: HostRuntime) {
    let mut left = ready::<MaskBook>(&rt);
    let mut body = [9; 508];
    body[..5].copy_from_slice(&[2, 0, 1, 1, 247]);
    assert!(&rt; left.send(true, &body) == Said::Refused(9));
    body[4] = 246;
    assert!(&rt; left.send(true, &body[..507]) == Said::Wrote(512));
    assert!(&rt; left.output[5..512] == body[..507]);
    assert!(&rt; left.send(true, &BODY) == Said::Refused(11));
}

// With A set and one I-Am-Alive that wants a reply, 1,015 octets are replied to with 1,024; one octet more would take 1,025.
#[test]
fn longest_reply(rt: HostRuntime) {
    let mut left = ready::<MaskBook>(&rt);
    let mut asking = [9; 1016];
    asking[..14].copy_from_slice(&[1, 0, 0, 9, 0, 6, 0, 0, 3, 238, 0, 0, 7, 213]);
    assert!(&rt; left.arrive(RIGHT, &asking[..1016]) == Said::Refused(15));
    asking[..14].copy_from_slice(&[1, 0, 0, 9, 0, 6, 0, 0, 3, 237, 0, 0, 7, 211]);
    assert!(&rt; left.arrive(RIGHT, &asking[..1015]) == Said::Wrote(1024));
}

// 8,388,608 numbers are given, and the next is refused; what needs no number still passes.
#[test]
fn numbers_are_spent(rt: HostRuntime) {
    let mut left = ready::<MaskBook>(&rt);
    for _ in 0..8_388_608 {
        assert!(&rt; left.send(false, &BODY) == Said::Wrote(12));
    }
    assert!(&rt; left.send(false, &BODY) == Said::Refused(12));
    assert!(&rt; left.arrive(RIGHT, &ACK) == Said::Nothing);
    assert!(&rt; left.arrive(RIGHT, &MESSAGE) == Said::Refused(12));
}
