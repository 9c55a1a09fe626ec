// The I-Am-Alives that a datagram is replied with.
ghost use Rattle.std.specs.Prelude.{◌≡◌, [], ◌∷◌, map};
ghost use Rattle.std.specs.Iterator.{YieldsFirstBy, item_count};
ghost use Rattle.std.specs.Option.{option_map};
ghost use Rattle.datagram.specs.Views.{content_says, payloads_say};
ghost use Rattle.writer.specs.Bodies.{living};
ghost use Rattle.endpoint.specs.Parts.{octets_in, echoed, echo_says, echoes_say, Adds};
ghost use Rattle.endpoint.specs.Replies.{cookies_asked};

use datagram::{Alive, Content, Payloads};
use writer::{Refusal, Writer};

// The header of a payload, and what stands before the cookie of an I-Am-Alive.
const ECHO_HEADER: usize = 5 + 4;

// The answer to an I-Am-Alive that wants a reply: it gives the cookie back.
fn echo(content: Content<'_>) -> Option<Alive<'_>>
    ensures { option_map echo_says result ≡ echoed (content_says content.entry) }
{
    match content {
        Content::IAmAlive(alive) if alive.wants_reply => Some(Alive {
            validity: 0,
            wants_reply: false,
            cookie: alive.cookie,
        }),
        _ => None,
    }
}

// How many octets it has as a payload.
pub(crate) fn echo_size(echo: &Alive) -> usize
    ensures { result ≡ octets_in (echo_says echo.now ∷ []) }
{
    ECHO_HEADER + echo.cookie.map_or(0, |cookie| cookie.len())
}

// Those that are still to come: one for each that wants a reply.
#[derive(Clone, Copy)]
pub(crate) struct Echoes<'d> {
    payloads: Payloads<'d>,
}

impl<'d> Echoes<'d> {
    pub(crate) fn of(payloads: Payloads<'d>) -> Echoes<'d>
        ensures { echoes_say result ≡ map living (cookies_asked (payloads_say payloads.entry)) }
    {
        Echoes { payloads }
    }
}

impl<'d> Iterator for Echoes<'d> {
    type Item = Alive<'d>;

    ghost remaining = { item_count echoes_say };

    ghost next_gives = { YieldsFirstBy echo_says echoes_say };

    fn next(&mut self) -> Option<Alive<'d>> {
        self.payloads.find_map(|payload| echo(payload.content))
    }
}

// Adds them to a datagram, under no call.
pub(crate) fn add_echoes(writer: &mut Writer, echoes: Echoes) -> Result<(), Refusal>
    ensures same { writer.new.buffer.ghost_name ≡ writer.old.buffer.ghost_name }
    ensures adds { Adds (echoes_say echoes.entry) writer.old result writer.new }
{
    for echo in echoes {
        writer.add_alive(0, echo)?;
    }
    Ok(())
}
