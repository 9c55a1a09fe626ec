// Rehearsals of two endpoints: reads a script, and prints the transcript of what its calls answered.
#![tactic(auto)]

mod answer;
mod hex;
mod line;
mod lines;
mod order;
mod script;
mod tally;
mod transcript;
mod unread;
mod whole;
mod word;

pub use order::Setup;
pub use script::{Calls, Script};
pub use transcript::transcript_of;
pub use unread::Unread;
pub use whole::{Stop, rehearse};
pub use word::Book;
