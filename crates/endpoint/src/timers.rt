// How long an endpoint waits, in milliseconds, and how often it tries.

#[derive(Clone, Copy)]
pub struct Timers {
    // T1: from a message's first transmission to its second
    pub first: u64,
    // T3: between the transmissions after that
    pub later: u64,
    // N1: how many transmissions a message has before it is given up
    pub tries: u8,
    // T5: how long a neighbour may be unheard before it is silent
    pub silence: u64,
    // T7: how long a master lets the line rest before it sends an I-Am-Alive
    pub rest: u64,
}

// What every neighbour has.
pub const STANDING: Timers = Timers {
    first: 1_000,
    later: 3_000,
    tries: 4,
    silence: 30_000,
    rest: 6_000,
};
