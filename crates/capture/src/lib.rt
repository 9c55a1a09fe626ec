// Reads capture files: records of a datagram, its sender and its time.
#![tactic(auto)]

mod record;
mod records;
mod stop;

pub use record::Record;
pub use records::Records;
pub use stop::{Question, Stop};
