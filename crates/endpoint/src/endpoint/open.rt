// A new endpoint.
ghost use Rattle.std.specs.Prelude.{◌≡◌};
ghost use Rattle.datagram.specs.Results.{map_ok};
ghost use Rattle.endpoint.specs.Enrols.{opened};
ghost use Rattle.endpoint.specs.Views.{end_says};

use super::Endpoint;
use crate::laws::PLACES;
use crate::numbering::Numbering;
use crate::refusal::Refusal;
use arrivals::ArrivalBook;

impl<B: ArrivalBook> Endpoint<B> {
    // Its first number is `start`.
    pub fn open(start: u32) -> Result<Endpoint<B>, Refusal>
        ensures { map_ok (end_says B.ArrivalBook.seen) result ≡ opened start }
    {
        let numbering = Numbering::starting_at(start)?;
        Ok(Endpoint {
            book: B::new(),
            latest: 0,
            numbering,
            places: [None; PLACES],
        })
    }
}
