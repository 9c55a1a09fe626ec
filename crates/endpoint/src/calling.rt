// The I-Am-Alive that an endpoint sends of its own accord.
ghost use Rattle.std.specs.Prelude.{◌≡◌, ◌^◌, ◌<◌, ◌≤◌, true, ◌++◌, length, drop, None};
ghost use Rattle.datagram.specs.Views.{alive_says};
ghost use Rattle.writer.specs.Bodies.{calling};
ghost use Rattle.writer.specs.Values.{written};
ghost use Rattle.endpoint.specs.Parts.{Wrote};

use datagram::Alive;
use writer::{Refusal, Writer};

// It wants a reply, and has no cookie.
fn call<'c>() -> Alive<'c>
    ensures { alive_says result ≡ record { validity = 0; wants_reply = true; cookie = None } }
{
    Alive {
        validity: 0,
        wants_reply: true,
        cookie: None,
    }
}

fn try_write_alive(number: u32, out: &mut [u8]) -> Result<usize, Refusal>
    requires number { number < 2 ^ 24 }
    requires room { 1024 ≤ length out.old }
    ensures { Wrote (written (calling number)) result out.old out.new }
{
    let mut writer = Writer::over(out);
    writer.open(number, false)?;
    writer.add_alive(0, call())?;
    writer.close()
}

// Writes it to the front of the buffer, and answers how many octets it has.
pub(crate) fn write_alive(number: u32, out: &mut [u8]) -> usize
    requires number { number < 2 ^ 24 }
    requires room { 1024 ≤ length out.old }
    ensures size { result ≡ length (written (calling number)) }
    ensures buffer { out.new ≡ written (calling number) ++ drop (length (written (calling number))) out.old }
{
    try_write_alive(number, out).unwrap()
}
