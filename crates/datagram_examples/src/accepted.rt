// Datagrams that pass every question, and what their views say.
use datagram::{Content, Datagram, Payload};
use std::test::Fail;

// The one payload of a datagram that is accepted and has no more than one.
fn only_payload(octets: &[u8]) -> Result<Payload<'_>, Fail> {
    let mut payloads = Datagram::read(octets)?.payloads;
    let payload = payloads.next().ok_or("no payload")?;
    if payloads.next().is_some() {
        return Err(Fail::new("two payloads"));
    }
    Ok(payload)
}

fn count_payloads(octets: &[u8]) -> Option<usize> {
    let datagram = Datagram::read(octets).ok()?;
    // `count` would ask for a proof that so many fit; a test need not prove it.
    Some(
        datagram
            .payloads
            .fold(0usize, |count, _| count.saturating_add(1)),
    )
}

#[test]
fn an_ack_of_five(rt: HostRuntime) -> Result<(), Fail> {
    let octets = datagram::ack_of_five();
    let datagram = Datagram::read(&octets)?;
    assert_eq!(rt; datagram.number, 9);
    assert!(rt; !datagram.wants_ack);
    let payload = only_payload(&octets)?;
    assert_eq!(rt; payload.offset, 10);
    assert_eq!(rt; payload.content.kind(), 4);
    let Content::Ack(ack) = payload.content else {
        return Err(Fail::new("no Ack"));
    };
    assert!(rt; ack.names(5));
    assert!(rt; !ack.names(9));
    Ok(())
}

#[test]
fn the_header_at_its_limits(rt: HostRuntime) -> Result<(), Fail> {
    // Reserved bits are set, and say nothing.
    let octets = [
        0x0F, 0xFF, 0xFF, 0xFF, 0, 0x03, 0x80, 0x01, 0, 2, 0xAB, 0xCD,
    ];
    let datagram = Datagram::read(&octets)?;
    assert_eq!(rt; datagram.number, 16_777_215);
    assert!(rt; datagram.wants_ack);
    let payload = only_payload(&octets)?;
    assert_eq!(rt; payload.crv, 0x8001);
    assert_eq!(rt; payload.content.kind(), 1);
    assert_eq!(rt; payload.data, b"\xAB\xCD".as_slice());
    Ok(())
}

#[test]
fn one_thousand_and_twenty_four_octets(rt: HostRuntime) -> Result<(), Fail> {
    let mut octets = [0; 1025];
    octets[5] = 2;
    octets[8] = 0x03;
    octets[9] = 0xF6;
    let payload = only_payload(&octets[0..1024])?;
    assert_eq!(rt; payload.data.len(), 1014);
    assert_eq!(rt; count_payloads(&octets), None);
    Ok(())
}

#[test]
fn two_hundred_and_three_payloads(rt: HostRuntime) {
    let mut octets = [0; 1024];
    octets[4] = 202;
    assert_eq!(rt; count_payloads(&octets[0..1020]), Some(203));
    assert_eq!(rt; count_payloads(&octets[0..1019]), None);
    assert_eq!(rt; count_payloads(&octets), None);
}

#[test]
fn numbers_of_an_ack(rt: HostRuntime) -> Result<(), Fail> {
    let octets = [0, 0, 0, 0, 0, 9, 0, 0, 0, 7, 5, 0, 0, 5, 0xFF, 0xFF, 0xFF];
    let Content::Ack(mut ack) = only_payload(&octets)?.content else {
        return Err(Fail::new("no Ack"));
    };
    assert_eq!(rt; ack.next(), Some(5));
    assert!(rt; !ack.names(5));
    assert_eq!(rt; ack.next(), Some(16_777_215));
    assert_eq!(rt; ack.next(), None);
    assert_eq!(rt; ack.next(), None);
    Ok(())
}

#[test]
fn the_first_reason_for_a_number(rt: HostRuntime) -> Result<(), Fail> {
    let octets = [
        0, 0, 0, 0, 0, 10, 0, 0, 0, 21, 6, 0, 0, 5, 1, 2, 1, 9, 0, 0, 6, 0, 0, 0, 0, 0, 5, 3, 4, 1,
        8,
    ];
    let Content::Nack(mut nack) = only_payload(&octets)?.content else {
        return Err(Fail::new("no Nack"));
    };
    assert_eq!(rt; nack.reason_for(5), Some(0x0102));
    assert_eq!(rt; nack.reason_for(6), Some(0));
    assert_eq!(rt; nack.reason_for(7), None);
    let entry = nack.next().ok_or("no entry")?;
    assert_eq!(rt; entry.number, 5);
    assert_eq!(rt; entry.data, b"\x09".as_slice());
    assert_eq!(rt; nack.reason_for(5), Some(0x0304));
    Ok(())
}

#[test]
fn a_cookie_or_none(rt: HostRuntime) -> Result<(), Fail> {
    let octets = [0, 0, 0, 0, 0, 6, 0, 0, 0, 6, 2, 0x58, 0, 5, 0x61, 0x62];
    let Content::IAmAlive(alive) = only_payload(&octets)?.content else {
        return Err(Fail::new("no I-Am-Alive"));
    };
    assert_eq!(rt; alive.validity, 600);
    assert!(rt; alive.wants_reply);
    assert_eq!(rt; alive.cookie.ok_or("no cookie")?, b"ab".as_slice());
    let octets = [0, 0, 0, 0, 0, 6, 0, 0, 0, 4, 0, 0, 0, 0];
    let Content::IAmAlive(alive) = only_payload(&octets)?.content else {
        return Err(Fail::new("no I-Am-Alive"));
    };
    assert!(rt; !alive.wants_reply);
    assert!(rt; alive.cookie.is_none());
    Ok(())
}

#[test]
fn an_oid_and_what_follows_it(rt: HostRuntime) -> Result<(), Fail> {
    let octets = [0, 0, 0, 0, 0, 12, 0, 7, 0, 6, 0, 3, 0x2B, 0x0C, 0x02, 0x78];
    let Content::NonStandard(nonstandard) = only_payload(&octets)?.content else {
        return Err(Fail::new("not non-standard"));
    };
    assert_eq!(rt; nonstandard.oid, b"\x2B\x0C\x02".as_slice());
    assert_eq!(rt; nonstandard.free, b"x".as_slice());
    Ok(())
}

#[test]
fn an_unsupported_type(rt: HostRuntime) -> Result<(), Fail> {
    let octets = [0, 0, 0, 0, 0, 0xFF, 0, 7, 0, 1, 0x2A];
    let payload = only_payload(&octets)?;
    assert_eq!(rt; payload.content.kind(), 127);
    let Content::Unsupported(kind, data) = payload.content else {
        return Err(Fail::new("supported"));
    };
    assert_eq!(rt; kind, 127);
    assert_eq!(rt; data, b"\x2A".as_slice());
    Ok(())
}
