// Whom an endpoint signals with, and who keeps the line alive.

// The pair that a neighbour is known by.
#[derive(Clone, Copy, PartialEq, Eq)]
pub struct Peer {
    pub address: [u8; 4],
    pub port: u16,
}

// The role of this endpoint towards a neighbour: a master sends I-Am-Alives of its own accord.
#[derive(Clone, Copy)]
pub enum Role {
    Master,
    Slave,
}
