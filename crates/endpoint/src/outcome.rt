// What a datagram says of an outstanding message.
ghost use Rattle.std.specs.Prelude.{◌≡◌};
ghost use Rattle.datagram.specs.Views.{content_says, payloads_say};
ghost use Rattle.endpoint.specs.Replies.{outcome_in, decided};

use crate::answer::Outcome;
use datagram::{Content, Payloads};

fn outcome_in(content: Content, number: u32) -> Option<Outcome>
    ensures { result ≡ outcome_in number (content_says content.entry) }
{
    match content {
        Content::Ack(ack) => ack.names(number).then_some(Outcome::Acknowledged),
        Content::Nack(nack) => nack.reason_for(number).map(Outcome::Rejected),
        _ => None,
    }
}

// The first payload that names the number decides.
pub(crate) fn decide(mut payloads: Payloads, number: u32) -> Option<Outcome>
    ensures { result ≡ decided number (payloads_say payloads.entry) }
{
    payloads.find_map(|payload| outcome_in(payload.content, number))
}
