// What an arrival hands out: call messages and non-standard payloads.
ghost use Rattle.std.specs.Prelude.{◌≡◌, [], cond};
ghost use Rattle.std.specs.Iterator.{YieldsFirstBy, item_count};
ghost use Rattle.datagram.specs.Views.{content_says, payload_says, payloads_say};
ghost use Rattle.endpoint.specs.Arrives.{handed_out};
ghost use Rattle.endpoint.specs.Sends.{is_message};
ghost use Rattle.endpoint.specs.Parts.{messages_say};

use datagram::{Content, Payload, Payloads};

// What is handed out, and what may be sent.
pub(crate) fn is_message(content: &Content) -> bool
    ensures { result ≡ is_message (content_says content.now) }
{
    matches!(content, Content::CallMessage(_) | Content::NonStandard(_))
}

// Those that are still to come, in their order. A datagram that came before hands out none.
#[derive(Clone, Copy)]
pub struct Messages<'d> {
    payloads: Option<Payloads<'d>>,
}

impl<'d> Messages<'d> {
    pub(crate) fn of(fresh: bool, payloads: Payloads<'d>) -> Messages<'d>
        ensures { messages_say result ≡ cond fresh (handed_out (payloads_say payloads.entry)) [] }
    {
        Messages {
            payloads: fresh.then_some(payloads),
        }
    }
}

impl<'d> Iterator for Messages<'d> {
    type Item = Payload<'d>;

    ghost remaining = { item_count messages_say };

    ghost next_gives = { YieldsFirstBy payload_says messages_say };

    fn next(&mut self) -> Option<Payload<'d>> {
        self.payloads
            .as_mut()?
            .find(|payload| is_message(&payload.content))
    }
}
