// A neighbour is heard.
ghost use Rattle.std.specs.Prelude.{◌≡◌};
ghost use Rattle.datagram.specs.Views.{payloads_say};
ghost use Rattle.endpoint.specs.Arrives.{settles, heard_at};
ghost use Rattle.endpoint.specs.Ends.{held};
ghost use Rattle.endpoint.specs.Views.{neighbour_says};

use crate::answer::Settled;
use crate::outcome::decide;
use crate::place::{Neighbour, Outstanding};
use datagram::Payloads;

impl Neighbour {
    // Only what is fresh settles the outstanding message.
    pub(crate) fn hear(&mut self, time: u64, fresh: bool, payloads: Payloads) -> Option<Settled>
        ensures settled { result ≡ settles fresh (neighbour_says self.old).outstanding (payloads_say payloads.entry) }
        ensures after { held (neighbour_says self.new) ≡ heard_at time result (held (neighbour_says self.old)) }
    {
        self.heard = time;
        self.silent = false;
        if !fresh {
            return None;
        }
        let Outstanding::Waiting { number, .. } = self.outstanding else {
            return None;
        };
        let outcome = decide(payloads, number)?;
        self.outstanding = Outstanding::Nothing;
        Some(Settled { number, outcome })
    }
}
