// One endpoint, over an arrival book of any kind.
use crate::laws::PLACES;
use crate::numbering::Numbering;
use crate::place::Place;

mod arrive;
mod asking;
mod enrol;
mod open;
mod send;
mod tick;

// The latest time is that of the last accepted call.
#[derive(Drop)]
pub struct Endpoint<B> {
    book: B,
    latest: u64,
    numbering: Numbering,
    places: [Place; PLACES],
}
