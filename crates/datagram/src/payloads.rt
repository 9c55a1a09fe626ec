// The payloads of a datagram that has passed every question, one by one.
ghost use Rattle.std.specs.Prelude.{◌≡◌};
ghost use Rattle.datagram.specs.Views.{payload_says, payloads_say};
ghost use Rattle.std.specs.Iterator.{YieldsFirstBy, item_count};

use crate::payload::Payload;
use crate::reader::Reader;

// Those that are still to come. What follows a fault does not come, and an accepted datagram has none.
#[derive(Clone, Copy)]
pub struct Payloads<'d> {
    reader: Reader<'d>,
}

impl<'d> Payloads<'d> {
    pub(crate) fn from_here(reader: Reader<'d>) -> Payloads<'d>
        ensures { result.reader ≡ reader.entry }
    {
        Payloads { reader }
    }
}

impl<'d> Iterator for Payloads<'d> {
    type Item = Payload<'d>;

    ghost remaining = { item_count payloads_say };

    ghost next_gives = { YieldsFirstBy payload_says payloads_say };

    #[inline(always)]
    fn next(&mut self) -> Option<Payload<'d>> {
        self.reader.next().ok().flatten()
    }
}
