// The questions that a record must pass, and the answer that a failed one gives.
ghost use Rattle.std.specs.Prelude.{◌≡◌};
ghost use Rattle.capture.specs.Stops.{number_of, turnable, stop};

// Each question by what it asks for. The number is the one that the outside sees.
#[derive(Clone, Copy, Debug, PartialEq, Eq)]
pub enum Question {
    HoldsRecord = 40,
    IsDatagram = 41,
    AmongFirst = 42,
}

impl Question {
    // A method and no `From`: the name says which number it is.
    pub fn number(self) -> u8
        ensures { result ≡ number_of self }
    {
        self as u8
    }

    // Whether more octets may turn the answer.
    pub fn is_turnable(self) -> bool
        ensures { result ≡ turnable self }
    {
        matches!(self, Question::HoldsRecord)
    }

    // The answer no, of `record`.
    pub(crate) fn stop(self, record: u32) -> Stop
        ensures { result ≡ stop self «record» }
    {
        Stop {
            question: self,
            record,
        }
    }
}

// A question that was answered with no, and of which record, counted from 1. Nothing behind it is read.
#[derive(Clone, Copy, Debug, PartialEq, Eq)]
pub struct Stop {
    pub question: Question,
    pub record: u32,
}
