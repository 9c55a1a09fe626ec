// Reads H.323 Annex E datagrams: a header, then payloads with their structures, as views of the caller's octets.
#![tactic(auto)]

mod body;
mod content;
mod datagram;
mod example;
mod fault;
mod header;
mod kind;
mod payload;
mod payloads;
mod reader;
mod structure;

pub use body::Body;
pub use content::Content;
pub use datagram::Datagram;
pub use example::ack_of_five;
pub use fault::{Fault, Layer, Question};
pub use header::MAXIMUM;
pub use kind::{Kind, UnsupportedType};
pub use payload::Payload;
pub use payloads::Payloads;
pub use structure::ack::Ack;
pub use structure::alive::Alive;
pub use structure::nack::{Entry, Nack};
pub use structure::nonstandard::NonStandard;
