// The structures that the data of some types of payload has.
pub mod ack;
pub mod alive;
pub mod nack;
pub mod nonstandard;
