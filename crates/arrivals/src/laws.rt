// How far books reach, each limit with the law of whole histories that it is the limit of.
ghost use Rattle.arrivals.specs.Histories.{PlacesApart, NumbersSound, Remembers};

use crate::number::{FARTHEST_AHEAD, LAST_NUMBER};
use crate::table::PLACES;

#[derive(Clone, Copy)]
pub struct Limits {
    // how many places a book has
    pub places: usize,
    // how many numbers there are before they wrap
    pub numbers: u32,
    // how many steps the newest number of a place may be past a noted one before that could be taken for fresh
    pub memory: u32,
}

pub fn book_limits() -> Limits
    ensures places { PlacesApart result.places }
    ensures numbers { NumbersSound result.numbers }
    ensures memory { Remembers result.memory }
{
    Limits {
        places: PLACES,
        numbers: LAST_NUMBER + 1,
        memory: LAST_NUMBER - FARTHEST_AHEAD,
    }
}
