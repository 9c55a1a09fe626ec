// Numbers of 24 bits, which wrap: the one place that knows which of two is ahead.
ghost use Rattle.std.specs.Prelude.{◌≡◌, ◌<◌, MatchResult};
ghost use Rattle.arrivals.specs.Meaning.{steps_up, ahead};

pub const LAST_NUMBER: u32 = 0xff_ffff;

// A number is ahead of another by at most this many steps.
pub const FARTHEST_AHEAD: u32 = LAST_NUMBER / 2;

#[derive(Clone, Copy, PartialEq, Eq)]
pub(crate) struct Number {
    pub value: u32,
    ghost in_range: { value < 16777216 },
}

// A value above the last number.
#[derive(Clone, Copy)]
pub(crate) struct PastLast;

impl TryFrom<u32> for Number {
    type Error = PastLast;

    ghost try_from_gives = { λ value r. MatchResult r (λ n. n.value ≡ value) (λ _. 16777215 < value) };

    fn try_from(value: u32) -> Result<Number, PastLast> {
        if value > LAST_NUMBER {
            return Err(PastLast);
        }
        Ok(Number { value })
    }
}

impl Number {
    // How many steps lead from `low` up to this number.
    pub fn steps_up(self, low: Number) -> u32
        ensures { result ≡ steps_up self.value low.value }
    {
        self.value.wrapping_sub(low.value) & LAST_NUMBER
    }

    pub fn is_ahead(self, newest: Number) -> bool
        ensures { result ≡ ahead self.value newest.value }
    {
        (1..=FARTHEST_AHEAD).contains(&self.steps_up(newest))
    }
}
