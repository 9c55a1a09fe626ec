// The questions that several calls begin with.
ghost use Rattle.std.specs.Prelude.{◌≡◌, ◌<◌};
ghost use Rattle.endpoint.specs.Asking.{time_asks, place_asks, writing_asks};
ghost use Rattle.endpoint.specs.Ends.{is_held, site_at};
ghost use Rattle.endpoint.specs.Steps.{first_no, passes};
ghost use Rattle.endpoint.specs.Views.{end_says};

use super::Endpoint;
use crate::laws::{LAST_TIME, PLACES};
use crate::refusal::Refusal;
use arrivals::ArrivalBook;
use datagram::MAXIMUM;

impl<B: ArrivalBook> Endpoint<B> {
    pub(super) fn check_time(&self, time: u64) -> Result<(), Refusal>
        ensures { result ≡ passes (first_no (time_asks (end_says B.ArrivalBook.seen self.now) time)) tt }
    {
        if time > LAST_TIME {
            return Err(Refusal::TimeTooHigh);
        }
        if time < self.latest {
            return Err(Refusal::ClockRanBack);
        }
        Ok(())
    }

    pub(super) fn check_place(&self, place: usize, time: u64) -> Result<(), Refusal>
        ensures { result ≡ passes (first_no (place_asks (end_says B.ArrivalBook.seen self.now) place time)) tt }
    {
        if place >= PLACES {
            return Err(Refusal::NoSuchPlace);
        }
        self.check_time(time)
    }

    pub(super) fn is_held(&self, place: usize) -> bool
        requires { place < 32 }
        ensures { result ≡ is_held (site_at (end_says B.ArrivalBook.seen self.now) place) }
    {
        self.places[place].is_some()
    }

    // What a call asks first that may write to the neighbour of a place.
    pub(super) fn check_writing(&self, place: usize, time: u64, room: usize) -> Result<(), Refusal>
        ensures { result ≡ passes (first_no (writing_asks (end_says B.ArrivalBook.seen self.now) place time room)) tt }
    {
        self.check_place(place, time)?;
        if !self.is_held(place) {
            return Err(Refusal::PlaceVacant);
        }
        if room < MAXIMUM {
            return Err(Refusal::BufferTooShort);
        }
        Ok(())
    }
}
