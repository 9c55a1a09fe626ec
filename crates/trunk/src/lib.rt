// Two endpoints and the line between them: the law that every list of calls on them keeps.
#![tactic(auto)]

ghost use Rattle.trunk.specs.Changes.{ChangesKeepTheLaw};
ghost use Rattle.trunk.specs.Refuted.{EachPartRefutes};
ghost use Rattle.trunk.specs.Rehearsal.{SixteenCalls};
ghost use Rattle.trunk.specs.Two.{LogTellsTruly, TwoEndsInTimeKeepTheLaw, TwoEndsKeepTheLaw};

mod call;
mod log;
mod party;
mod runs;
mod setting;

pub use call::{Call, Turn};
pub use log::{Answer, Arrival, Entry, Error, HandedOut};
pub use runs::run;
pub use setting::{End, Setting, Side};

// Written out and not taken from the endpoint's timers, so that the law's two numbers are read where it stands.
const TRIES: u8 = 4;

const GAP: u64 = 3000;

// The two numbers in the law.
#[derive(Clone, Copy)]
pub struct Limits {
    // how often a send may go on the line, and after how many ticks it has its outcome
    pub tries: u8,
    // how many milliseconds lie between two of these ticks at least
    pub gap: u64,
}

// Whatever two endpoints and the line between them do keeps the law at these limits. Each part of the law excludes something, and a run of
// sixteen calls shows what it is about.
pub fn law_limits() -> Limits
    ensures two_ends { TwoEndsKeepTheLaw result.tries result.gap }
    ensures in_time { TwoEndsInTimeKeepTheLaw result.tries result.gap }
    ensures log { LogTellsTruly }
    ensures changes { ChangesKeepTheLaw }
    ensures refuted { EachPartRefutes result.tries result.gap }
    ensures rehearsed { SixteenCalls result.tries result.gap }
{
    Limits {
        tries: TRIES,
        gap: GAP,
    }
}
