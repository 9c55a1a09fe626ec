// The numbers that an endpoint gives its datagrams: 24 bits, in turn, and no more than half of them.
ghost use Rattle.std.specs.Prelude.{◌≡◌, ◌+◌, ◌%◌, ◌<◌, MatchResult, ◌≤◌, true};
ghost use Rattle.endpoint.specs.Timing.{numbers_left};
ghost use Rattle.endpoint.specs.declared.refusal.Refusal.TheVariants.{StartTooHigh};

use crate::laws::NUMBERS;
use crate::refusal::Refusal;

const LAST_NUMBER: u32 = NUMBERS - 1;

const MOST_GIVEN: u32 = NUMBERS / 2;

// The number to give next, and how many were given.
#[derive(Clone, Copy)]
pub(crate) struct Numbering {
    pub next: u32,
    pub given: u32,
    ghost in_range: { next < 16777216 },
}

impl Numbering {
    pub(crate) fn starting_at(next: u32) -> Result<Numbering, Refusal>
        ensures { MatchResult result (λ n. (next < 16777216) × (n.next ≡ next) × (n.given ≡ 0)) (λ r. (16777216 ≤ next) × (r ≡ StartTooHigh)) }
    {
        if next > LAST_NUMBER {
            return Err(Refusal::StartTooHigh);
        }
        Ok(Numbering { next, given: 0 })
    }

    pub(crate) fn is_left(self) -> bool
        ensures { result ≡ numbers_left self.given }
    {
        self.given < MOST_GIVEN
    }

    // Gives the next number.
    pub(crate) fn give(&mut self) -> u32
        requires { numbers_left self.old.given ≡ true }
        ensures number { result ≡ self.old.next }
        ensures next { self.new.next ≡ (self.old.next + 1) % 16777216 }
        ensures given { self.new.given ≡ self.old.given + 1 }
    {
        let number = self.next;
        *self = Numbering {
            next: number.wrapping_add(1) & LAST_NUMBER,
            given: self.given + 1,
        };
        number
    }
}
