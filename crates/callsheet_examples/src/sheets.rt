// Captures that are in memory as a whole, and their sheets.
use callsheet::{record_lines, sheet_of, stop_line};
use capture::{Question, Record, Stop};
use std::test::Fail;

#[test]
fn two_records(rt: HostRuntime) -> Result<(), Fail> {
    let sheet = sheet_of(rt.alloc(), &callsheet::two_records())?;
    let expected =
        "rec sec from num type call len\n1 60 10.0.0.7:1720 5 1 1 2\n2 61 10.0.0.7:1720 fault 21 3\n";
    assert_eq!(rt; sheet.as_str(), expected);
    Ok(())
}

#[test]
fn an_empty_capture(rt: HostRuntime) -> Result<(), Fail> {
    let sheet = sheet_of(rt.alloc(), &[])?;
    assert_eq!(rt; sheet.as_str(), "rec sec from num type call len\n");
    Ok(())
}

#[test]
fn one_octet(rt: HostRuntime) -> Result<(), Fail> {
    let sheet = sheet_of(rt.alloc(), &[0x18])?;
    assert_eq!(rt;
        sheet.as_str(),
        "rec sec from num type call len\nstop 40 1\n"
    );
    Ok(())
}

#[test]
fn a_record_that_breaks_off(rt: HostRuntime) -> Result<(), Fail> {
    let octets = callsheet::two_records();
    let sheet = sheet_of(rt.alloc(), &octets[0..42])?;
    assert_eq!(rt;
        sheet.as_str(),
        "rec sec from num type call len\n1 60 10.0.0.7:1720 5 1 1 2\nstop 40 2\n"
    );
    Ok(())
}

#[test]
fn the_largest_fields(rt: HostRuntime) -> Result<(), Fail> {
    let datagram = [
        0, 0xFF, 0xFF, 0xFF, 1, 0xFE, 0xFF, 0xFF, 0, 0, 0, 0, 0, 0, 1, 7,
    ];
    let record = Record {
        address: [255, 255, 255, 255],
        port: 65535,
        seconds: 4_294_967_295,
        datagram: &datagram,
    };
    let lines = record_lines(rt.alloc(), 999_999, &record)?;
    let expected =
        "999999 4294967295 255.255.255.255:65535 16777215 127 65535 0\n999999 4294967295 255.255.255.255:65535 16777215 0 0 1\n";
    assert_eq!(rt; lines.as_str(), expected);
    // A number that no record of a capture has makes the longest line, and there is room for it.
    let lines = record_lines(rt.alloc(), 4_294_967_295, &record)?;
    assert_eq!(rt; lines.len(), expected.len() + 8);
    Ok(())
}

#[test]
fn an_empty_datagram(rt: HostRuntime) -> Result<(), Fail> {
    let record = Record {
        address: [0, 0, 0, 0],
        port: 0,
        seconds: 0,
        datagram: &[],
    };
    let lines = record_lines(rt.alloc(), 1, &record)?;
    assert_eq!(rt; lines.as_str(), "1 0 0.0.0.0:0 fault 21 0\n");
    Ok(())
}

#[test]
fn one_record_too_many(rt: HostRuntime) -> Result<(), Fail> {
    let stop = Stop {
        question: Question::AmongFirst,
        record: 1_000_000,
    };
    let line = stop_line(rt.alloc(), stop)?;
    assert_eq!(rt; line.as_str(), "stop 42 1000000\n");
    Ok(())
}
