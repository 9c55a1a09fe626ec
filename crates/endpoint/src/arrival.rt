// What an accepted arrival is.
use crate::answer::{Sent, Settled};
use crate::messages::Messages;

// The messages lie in the caller's datagram.
#[derive(Clone, Copy)]
pub struct Arrival<'d> {
    pub fresh: bool,
    pub payloads: Messages<'d>,
    pub settled: Option<Settled>,
    pub reply: Option<Sent>,
}
