// Records of a capture that are read, and the stops of those that are not.
use capture::Records;
use std::test::Fail;

// The number of the question that stops the first record, and which record that is; nothing where it is read.
fn stop(octets: &[u8], before: u32) -> Option<(u8, u32)> {
    let mut records = Records {
        rest: octets,
        before,
    };
    let stop = records.next().err()?;
    Some((stop.question.number(), stop.record))
}

// A record of kind 1 that says `length`, with as many octets behind it as there is room for.
fn record(length: u16) -> [u8; 4200] {
    let mut octets = [0; 4200];
    octets[0..2].copy_from_slice(&length.to_le_bytes());
    octets[2] = 1;
    octets
}

#[test]
fn lengths_at_their_limits(rt: HostRuntime) {
    assert_eq!(rt; stop(&record(11), 0), Some((41, 1)));
    assert_eq!(rt; stop(&record(12), 0), None);
    assert_eq!(rt; stop(&record(4096), 0), None);
    assert_eq!(rt; stop(&record(4097), 0), Some((41, 1)));
    assert_eq!(rt; stop(&record(0), 0), Some((41, 1)));
}

#[test]
fn octets_that_are_not_there(rt: HostRuntime) {
    let octets = record(12);
    assert_eq!(rt; stop(&octets[0..1], 0), Some((40, 1)));
    assert_eq!(rt; stop(&octets[0..2], 0), Some((40, 1)));
    assert_eq!(rt; stop(&octets[0..13], 0), Some((40, 1)));
    assert_eq!(rt; stop(&octets[0..14], 0), None);
    // A length that no record may have is not looked at before its octets are there.
    assert_eq!(rt; stop(&record(65535), 0), Some((40, 1)));
}

#[test]
fn another_kind(rt: HostRuntime) {
    let mut octets = record(12);
    octets[2] = 2;
    assert_eq!(rt; stop(&octets, 6), Some((41, 7)));
    octets[2] = 1;
    octets[3] = 1;
    assert_eq!(rt; stop(&octets, 6), Some((41, 7)));
}

#[test]
fn the_last_record_and_one_more(rt: HostRuntime) {
    let octets = record(12);
    assert_eq!(rt; stop(&octets, 999_998), None);
    assert_eq!(rt; stop(&octets, 999_999), Some((42, 1_000_000)));
    // Even where it is only an octet, and not where nothing is left.
    assert_eq!(rt; stop(&octets[0..1], 999_999), Some((42, 1_000_000)));
    assert_eq!(rt; stop(&[], 999_999), None);
}

#[test]
fn the_fields_of_a_record(rt: HostRuntime) -> Result<(), Fail> {
    let octets = callsheet::two_records();
    let mut records = Records {
        rest: &octets,
        before: 0,
    };
    let first = records.next()?.ok_or("no record")?;
    assert_eq!(rt; first.address, [10, 0, 0, 7]);
    assert_eq!(rt; first.port, 1720);
    assert_eq!(rt; first.seconds, 60);
    assert_eq!(rt; first.datagram.len(), 12);
    assert_eq!(rt; records.before, 1);
    assert_eq!(rt; records.rest.len(), 17);
    Ok(())
}
