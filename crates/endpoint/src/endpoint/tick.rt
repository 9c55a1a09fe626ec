// Time goes by for a place.
ghost use Rattle.std.specs.Prelude.{length};
ghost use Rattle.endpoint.specs.Steps.{Does};
ghost use Rattle.endpoint.specs.Ticks.{tick};
ghost use Rattle.endpoint.specs.Views.{end_says};

use super::Endpoint;
use crate::answer::Ticked;
use crate::refusal::Refusal;
use arrivals::ArrivalBook;

impl<B: ArrivalBook> Endpoint<B> {
    pub fn tick(&mut self, place: usize, time: u64, output: &mut [u8]) -> Result<Ticked, Refusal>
        ensures { Does (tick (end_says B.ArrivalBook.seen self.old) place time (length output.old)) result (end_says B.ArrivalBook.seen self.new) output.old output.new }
    {
        self.check_writing(place, time, output.len())?;
        let Endpoint {
            numbering,
            places,
            ..
        } = self;
        let Some(neighbour) = &mut places[place] else {
            return Err(Refusal::PlaceVacant);
        };
        let ticked = neighbour.tick(time, numbering, output)?;
        self.latest = time;
        Ok(ticked)
    }
}
