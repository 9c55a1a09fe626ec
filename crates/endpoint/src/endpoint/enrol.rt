// A neighbour comes to a place.
ghost use Rattle.std.specs.Prelude.{◌≡◌, ◌<◌};
ghost use Rattle.std.specs.Option.{IfSome};
ghost use Rattle.endpoint.specs.Ends.{place_of};
ghost use Rattle.endpoint.specs.Enrols.{enrol_asks, enrol};
ghost use Rattle.endpoint.specs.Steps.{Comes, first_no, passes};
ghost use Rattle.endpoint.specs.Views.{end_says};

use super::Endpoint;
use crate::peer::{Peer, Role};
use crate::place::Neighbour;
use crate::refusal::Refusal;
use arrivals::ArrivalBook;
use search::find;

impl<B: ArrivalBook> Endpoint<B> {
    // The place that holds a peer.
    pub(super) fn place_of(&self, peer: &Peer) -> Option<usize>
        ensures first { result ≡ place_of (end_says B.ArrivalBook.seen self.now) peer.now }
        ensures within { IfSome result (λ place. place < 32) }
    {
        find(&self.places, peer)
    }

    fn check_enrolling(&self, place: usize, time: u64, peer: &Peer) -> Result<(), Refusal>
        ensures { result ≡ passes (first_no (enrol_asks (end_says B.ArrivalBook.seen self.now) place time peer.now)) tt }
    {
        self.check_place(place, time)?;
        if self.is_held(place) {
            return Err(Refusal::PlaceHeld);
        }
        if self.place_of(peer).is_some() {
            return Err(Refusal::PeerEnrolled);
        }
        Ok(())
    }

    pub fn enrol(&mut self, place: usize, time: u64, peer: Peer, role: Role) -> Result<(), Refusal>
        ensures { Comes (enrol (end_says B.ArrivalBook.seen self.old) place time peer role) result (end_says B.ArrivalBook.seen self.new) }
    {
        self.check_enrolling(place, time, &peer)?;
        self.latest = time;
        self.places[place] = Some(Neighbour::new(peer, role, time));
        Ok(())
    }
}
