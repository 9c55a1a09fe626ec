// How far endpoints reach, with the laws that hold of every endpoint within these limits.
ghost use Rattle.endpoint.specs.Laws.{AlwaysSound, ClockRunsOn, LimitsMet, NumbersInTurn, OnePlaceEach, OthersStay, RefusedChangesNothing};

use crate::timers::{STANDING, Timers};

pub const PLACES: usize = 32;

pub const NUMBERS: u32 = 16_777_216;

pub const LAST_TIME: u64 = 281_474_976_710_655;

pub const LARGEST_BODY: usize = 507;

pub const LARGEST_DATAGRAM: usize = HEADER + LARGEST_BODY;

pub(crate) const HEADER: usize = 5;

const PAYLOAD_HEADER: usize = 5;

#[derive(Clone, Copy)]
pub struct Limits {
    // how many places an endpoint has
    pub places: usize,
    // how many numbers there are before they wrap
    pub numbers: u32,
    // how many numbers an endpoint gives
    pub given: u32,
    // the last time of a call, in milliseconds
    pub last_time: u64,
    // of the datagram of an outstanding message, the fewest and the most octets
    pub smallest: usize,
    pub largest: usize,
    pub timers: Timers,
}

pub fn endpoint_limits() -> Limits
    ensures refused { RefusedChangesNothing }
    ensures others { OthersStay }
    ensures peers { OnePlaceEach }
    ensures clock { ClockRunsOn }
    ensures numbers { NumbersInTurn }
    ensures sound { AlwaysSound result }
    ensures met { LimitsMet result }
{
    Limits {
        places: PLACES,
        numbers: NUMBERS,
        given: NUMBERS / 2,
        last_time: LAST_TIME,
        smallest: HEADER + PAYLOAD_HEADER,
        largest: LARGEST_DATAGRAM,
        timers: STANDING,
    }
}
