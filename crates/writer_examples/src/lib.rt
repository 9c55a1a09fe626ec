// What the writer does on examples: one trunk datagram from beginning to end, and each edge.
#![tactic(auto)]

mod acknowledgement;
#[cfg(test)]
mod additions;
#[cfg(test)]
mod edges;
#[cfg(test)]
mod expected;
#[cfg(test)]
mod states;
#[cfg(test)]
mod trunk;

pub use acknowledgement::acknowledge;
