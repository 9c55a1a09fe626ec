// One endpoint of H.323 Annex E signalling: what it knows, and what it answers to its five calls.
#![tactic(auto)]

mod answer;
mod arrival;
mod body;
mod calling;
mod echoes;
mod endpoint;
mod example;
mod hear;
mod laws;
mod messages;
mod moves;
mod numbering;
mod outcome;
mod peer;
mod place;
mod refusal;
mod reply;
mod timers;

pub use answer::{Outcome, Sent, Settled, Ticked};
pub use arrival::Arrival;
pub use endpoint::Endpoint;
pub use example::last_number_sent;
pub use laws::{LARGEST_BODY, LAST_TIME, Limits, NUMBERS, PLACES, endpoint_limits};
pub use messages::Messages;
pub use peer::{Peer, Role};
pub use refusal::{Layer, Refusal};
pub use timers::{STANDING, Timers};
