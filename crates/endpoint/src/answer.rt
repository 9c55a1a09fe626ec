// What accepted calls answer.

// A datagram that a call wrote: its number, and how many octets it has.
#[derive(Clone, Copy)]
pub struct Sent {
    pub number: u32,
    pub size: usize,
}

// What a tick did: the first that applied.
#[derive(Clone, Copy)]
pub enum Ticked {
    // the outstanding message was written once more
    Resent(Sent),
    // the outstanding message, by its number, was given up
    Unanswered(u32),
    // the neighbour is now marked silent
    Silent,
    // an I-Am-Alive was written
    KeptAlive(Sent),
    Idle,
}

// What a neighbour said of an outstanding message. No `Result`: a rejection is an outcome here, and no error of this endpoint.
#[derive(Clone, Copy)]
pub enum Outcome {
    Acknowledged,
    // with the reason that was given
    Rejected(u16),
}

// An outstanding message, by its number, and the outcome that ended it.
#[derive(Clone, Copy)]
pub struct Settled {
    pub number: u32,
    pub outcome: Outcome,
}
