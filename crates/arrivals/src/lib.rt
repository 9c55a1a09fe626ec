// Arrival books: for each of 32 places, which numbers of 24 bits have come, remembered up to a depth behind the newest.
#![tactic(auto)]

mod book;
mod client;
mod laws;
mod list;
mod mask;
mod number;
mod table;
mod window;

pub use book::{ArrivalBook, Judgement};
pub use client::judge_and_note;
pub use laws::{Limits, book_limits};
pub use list::{ListBook, ListWindow};
pub use mask::{MaskBook, MaskWindow};
pub use table::{Place, Table};
