// Datagrams delivered to a new endpoint that has a neighbour at each of its places, over slices of senders and octets.
ghost use Rattle.std.specs.Prelude.{◌≡◌};
ghost use Rattle.datagram.specs.Results.{map_ok};
ghost use Rattle.endpoint.specs.Views.{end_says, arrival_says};
ghost use Rattle.bridge.specs.Deliveries.{AllAreHeld, Delivered, code, datagrams, neighbour, surrounded};

use arrivals::{ArrivalBook, MaskBook};
use datagram::MAXIMUM;
use endpoint::{Arrival, Endpoint, PLACES, Peer, Refusal, Role};

// 10.0.0.number, at port 1720.
fn neighbour(number: u8) -> Peer
    ensures { result ≡ neighbour number }
{
    Peer {
        address: [10, 0, 0, number],
        port: 1720,
    }
}

// The octet that an answer is written as: 0 fresh, 1 again, else the number of the refusal.
fn code_of(answer: Result<Arrival, Refusal>) -> u8
    ensures { result ≡ code (map_ok arrival_says answer.entry) }
{
    match answer {
        Ok(arrival) => !arrival.fresh as u8,
        Err(refusal) => refusal.number(),
    }
}

// An endpoint that gives the number 0 first, with a neighbour at each of its places.
fn surrounded<B: ArrivalBook + Drop>() -> Endpoint<B>
    ensures end { end_says B.ArrivalBook.seen result ≡ surrounded }
    ensures held { AllAreHeld }
{
    let mut endpoint = Endpoint::open(0).unwrap();
    for place in 0..PLACES {
        // None of these is refused, and one that were would change nothing.
        let _ = endpoint.enrol(place, 0, neighbour(place as u8), Role::Slave);
    }
    endpoint
}

// Delivers the datagrams in order, all at the time 0, and writes how each is answered. The datagrams lie end to end in the octets, and the
// sizes say where each ends; a datagram's sender is the neighbour of its number. It goes as far as the shortest of the three slices, and no
// further than where the octets hold the whole datagram, and answers how far that was.
fn run<B: ArrivalBook + Drop>(
    senders: &[u8],
    sizes: &[usize],
    octets: &[u8],
    answers: &mut [u8],
) -> usize
    ensures { Delivered B.ArrivalBook.depth surrounded senders.now (datagrams sizes.now octets.now) answers.old result answers.new }
{
    let mut endpoint = surrounded::<B>();
    // It has room for any reply, and what is written there goes nowhere.
    let mut output = [0; MAXIMUM];
    let count = senders.len().min(sizes.len()).min(answers.len());
    let mut rest = octets;
    for i in 0..count {
        let Some((datagram, later)) = rest.split_at_checked(sizes[i]) else {
            return i;
        };
        answers[i] = code_of(endpoint.arrive(0, neighbour(senders[i]), datagram, &mut output));
        rest = later;
    }
    count
}

// A run over the mask book, for C to call.
#[unsafe(no_mangle)]
pub extern "C" fn endpoint_mask_run(
    senders: &[u8],
    sizes: &[usize],
    octets: &[u8],
    answers: &mut [u8],
) -> usize
    ensures { Delivered 64 surrounded senders.now (datagrams sizes.now octets.now) answers.old result answers.new }
{
    run::<MaskBook>(senders, sizes, octets, answers)
}
