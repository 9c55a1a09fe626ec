// The line of one call.
ghost use Rattle.std.specs.Prelude.{◌≡◌, Some};
ghost use Rattle.trunk.specs.Views.{side_says, call_says, turn_says, entry_says};
ghost use Rattle.rehearsal.specs.Transcript.{side_word, call_word, call_line};

use crate::answer::AnswerText;
use std::fmt;
use trunk::{Call, Entry, Side, Turn};

pub(crate) fn side_name(side: Side) -> &'static str
    ensures { result.now ≡ side_word (side_says side) }
{
    match side {
        Side::Left => "left",
        Side::Right => "right",
    }
}

fn call_name(call: &Call) -> &'static str
    ensures { result.now ≡ call_word (call_says call.now) }
{
    match call {
        Call::Enrol { .. } => "enrol",
        Call::Send { .. } => "send",
        Call::Tick { .. } => "tick",
        Call::Arrive { .. } => "arrive",
        Call::Hear { .. } => "hear",
    }
}

// A call, by its number, and what came of it.
#[derive(Clone, Copy)]
pub(crate) struct CallLine<'l> {
    pub(crate) number: usize,
    pub(crate) turn: &'l Turn,
    pub(crate) entry: &'l Entry,
}

impl fmt::Display for CallLine<'_> {
    ghost output = { λ s. Some (call_line s.number (turn_says s.turn.now) (entry_says s.entry.now)) };

    fn fmt<W: fmt::Write>(&self, f: &mut fmt::Formatter<W>) -> fmt::Result {
        let side = side_name(self.turn.side);
        let call = call_name(&self.turn.call);
        let answer = AnswerText(self.entry);
        writeln!(f, "{} {side} {call}{answer}", self.number)
    }
}
