// Arrival books and an endpoint for Rust and C to link: runs of judge-and-note from a new book, and of datagrams delivered to a new endpoint.
#![tactic(auto)]

mod books;
mod deliveries;

pub use books::{arrivals_list_run, arrivals_mask_run};
pub use deliveries::endpoint_mask_run;
