// Writes H.323 Annex E datagrams into a caller's buffer: a header, then payloads, none of them ever by half.
#![tactic(auto)]

mod element;
mod example;
mod marks;
mod payload;
mod pieces;
mod refusal;
mod size;
mod typed;
mod writer;

pub use example::nack_of_one;
pub use refusal::{Found, Layer, Refusal};
pub use writer::Writer;
