// The records of a capture, one by one.
ghost use Rattle.std.specs.Prelude.{◌≡◌};
ghost use Rattle.std.specs.Option.{option_map};
ghost use Rattle.datagram.specs.Results.{map_ok};
ghost use Rattle.capture.specs.Records.{next_at, place_after};
ghost use Rattle.capture.specs.Views.{record_says, place_says};

use crate::record::Record;
use crate::stop::{Question, Stop};

// A capture has at most so many records.
const MOST: u32 = 999_999;

// The octets from some record on, and how many records came before. A capture begins with all its octets and 0.
#[derive(Clone, Copy)]
pub struct Records<'f> {
    pub rest: &'f [u8],
    pub before: u32,
}

impl<'f> Records<'f> {
    // The next record; `None` where the capture ends with its last one. A stop leaves the place as it was, so that the octets
    // to come may turn it. So this is no `Iterator`: after a stop a `for` would ask at the same place again, and never end.
    pub fn next(&mut self) -> Result<Option<Record<'f>>, Stop>
        ensures gives { map_ok (option_map record_says) result ≡ next_at (place_says self.old) }
        ensures moves { place_says self.new ≡ place_after (place_says self.old) }
    {
        if self.rest.is_empty() {
            return Ok(None);
        }
        if self.before >= MOST {
            return Err(Question::AmongFirst.stop(MOST + 1));
        }
        let number = self.before + 1;
        let short = Question::HoldsRecord.stop(number);
        let (length, after) = self.rest.split_first_chunk().ok_or(short)?;
        let length = u16::from_le_bytes(*length) as usize;
        let (body, rest) = after.split_at_checked(length).ok_or(short)?;
        let record = Record::read(body).ok_or(Question::IsDatagram.stop(number))?;
        self.rest = rest;
        self.before = number;
        Ok(Some(record))
    }
}
