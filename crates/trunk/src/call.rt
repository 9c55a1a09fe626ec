// A call on one of the two ends.
use crate::setting::Side;
use endpoint::{Peer, Role};

// The four calls on an open endpoint, with arrivals of two kinds. `room` is the length of the output buffer.
#[derive(Drop)]
pub enum Call {
    Enrol {
        place: usize,
        time: u64,
        peer: Peer,
        role: Role,
    },
    Send {
        place: usize,
        time: u64,
        wants_ack: bool,
        body: Vec<u8>,
        room: usize,
    },
    Tick {
        place: usize,
        time: u64,
        room: usize,
    },
    // under the other end's address: a copy of the datagram that the other wrote for this end in that entry, counted from 0
    Arrive {
        time: u64,
        entry: usize,
        room: usize,
    },
    // under anyone else's address
    Hear {
        time: u64,
        sender: Peer,
        octets: Vec<u8>,
        room: usize,
    },
}

#[derive(Drop)]
pub struct Turn {
    pub side: Side,
    pub call: Call,
}
