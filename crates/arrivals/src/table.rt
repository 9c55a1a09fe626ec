// An arrival book of 32 places, over any kind of window.
ghost use Rattle.std.specs.Prelude.{◌≡◌, true, slice_index_or, None};
ghost use Rattle.arrivals.specs.Meaning.{judged_number, with_fresh, is_fresh};
ghost use Rattle.arrivals.specs.Tables.{place_seen};

use crate::book::{ArrivalBook, Judgement};
use crate::number::Number;
use crate::window::Window;

pub const PLACES: usize = 32;

// A place stands for one neighbour: nothing has come from it yet, or its window says what has.
pub type Place<W> = Option<W>;

fn judge_at<W: Window>(place: &Place<W>, number: Number) -> Judgement
    ensures { result ≡ judged_number W.Window.DEPTH (place_seen W.Window.seen place.now) number.value }
{
    match place {
        None => Judgement::Fresh,
        Some(window) => window.judge(number),
    }
}

// The same place with one fresh number more.
fn with_at<W: Window>(place: Place<W>, number: Number) -> Place<W>
    requires { is_fresh (judged_number W.Window.DEPTH (place_seen W.Window.seen place) number.value) ≡ true }
    ensures { place_seen W.Window.seen result ≡ with_fresh W.Window.DEPTH (place_seen W.Window.seen place) number.value }
{
    match place {
        None => Some(W::first(number)),
        Some(window) => Some(window.with(number)),
    }
}

#[derive(Drop)]
pub struct Table<W> {
    places: [Place<W>; PLACES],
}

impl<W: Window> ArrivalBook for Table<W> {
    ghost depth = { W.Window.DEPTH };

    ghost seen = { λ b place. place_seen W.Window.seen (slice_index_or b.places place None) };

    ghost bounded = { W.Window.deep };

    fn new() -> Table<W> {
        Table {
            places: [None; PLACES],
        }
    }

    fn judge(&self, place: usize, number: u32) -> Judgement {
        match (self.places.get(place), Number::try_from(number)) {
            (Some(at), Ok(number)) => judge_at(at, number),
            _ => Judgement::Old,
        }
    }

    fn note(&mut self, place: usize, number: u32) {
        let Ok(number) = Number::try_from(number) else {
            return;
        };
        if place < PLACES && judge_at(&self.places[place], number) == Judgement::Fresh {
            // By index and not by `get_mut`, of whose slice nothing is said afterwards.
            let at = &mut self.places[place];
            *at = with_at(*at, number);
        }
    }
}
