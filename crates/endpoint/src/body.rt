// A body that is to be sent, and the datagram that carries it.
ghost use Rattle.std.specs.Prelude.{◌≡◌, ◌+◌, ◌-◌, ◌<◌, ◌≤◌, ◌^◌, ◌++◌, length, drop, IfOk};
ghost use Rattle.datagram.specs.Layout.{header_octets};
ghost use Rattle.datagram.specs.Views.{payload_says};
ghost use Rattle.endpoint.specs.Sends.{is_body_size, is_plain, body_asks};
ghost use Rattle.endpoint.specs.Steps.{first_no, passes};
ghost use Rattle.datagram.specs.Bodies.{body_payloads};
ghost use Rattle.writer.specs.Bodies.{how_many};

use crate::laws::{HEADER, LARGEST_BODY};
use crate::messages::is_message;
use crate::refusal::Refusal;
use datagram::{Body, Payload};

// Of a payload of the body, whether it may be sent. The reserved bit is in its first octet, ten before its data, as offsets count the header
// of the datagram too.
fn is_plain(body: &[u8], payload: &Payload) -> bool
    ensures { result ≡ is_plain body.now (payload_says payload.now) }
{
    let first = body.get(payload.offset.saturating_sub(10));
    is_message(&payload.content) && first.is_none_or(|octet| octet & 1 == 0)
}

fn is_body_size(body: &[u8]) -> bool
    ensures { result ≡ is_body_size (length body.now) }
{
    (1..=LARGEST_BODY).contains(&body.len())
}

// The questions that a body has to pass, whatever endpoint sends it. The answer is how many payloads it has.
pub(crate) fn check_body(body: &[u8]) -> Result<usize, Refusal>
    ensures answer { result ≡ passes (first_no (body_asks body.now)) (how_many (body_payloads body.now)) }
    ensures size { IfOk result (λ n. (1 ≤ n) × (n ≤ 256) × (5 ≤ length body.now) × (length body.now ≤ 507)) }
{
    if !is_body_size(body) {
        return Err(Refusal::BodySize);
    }
    let payloads = Body::read(body)?;
    let mut unseen = payloads;
    if !unseen.all(|payload| is_plain(body, &payload)) {
        return Err(Refusal::NotOnlyMessages);
    }
    Ok(payloads.count())
}

// A header that counts so many payloads, and then the body as it is. The writer makes payloads of what they say, and here are their octets.
pub(crate) fn write_message(
    number: u32,
    wants_ack: bool,
    payloads: usize,
    body: &[u8],
    output: &mut [u8],
) -> usize
    requires number { number < 2 ^ 24 }
    requires payloads { (1 ≤ payloads) × (payloads ≤ 256) }
    requires room { 5 + length body.now ≤ length output.old }
    ensures size { result ≡ 5 + length body.now }
    ensures buffer { output.new ≡ (header_octets number wants_ack (payloads - 1) ++ body.now) ++ drop (5 + length body.now) output.old }
{
    let [_, n2, n1, n0] = number.to_be_bytes();
    let size = HEADER + body.len();
    output[..HEADER].copy_from_slice(&[wants_ack as u8, n2, n1, n0, (payloads - 1) as u8]);
    output[HEADER..size].copy_from_slice(body);
    size
}
