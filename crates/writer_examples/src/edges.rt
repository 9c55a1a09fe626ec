// Each edge of room and of the fields, and the mark that a refusal names.
use crate::expected::{FILLER, begins, is_filler, is_read, is_refused};
use datagram::Entry;
use std::process::Abort;
use std::test::Fail;
use writer::Writer;

// Five octets of the datagram's header and five of the payload's, and then the data.
const FULL: [u8; 1014] = [0xAB; 1014];

const OVERFULL: [u8; 1015] = [0xAB; 1015];

const MOST_PAYLOADS: usize = 203;

const LARGEST_NUMBER: u32 = 16_777_215;

#[test]
fn exactly_the_maximum(rt: HostRuntime) -> Result<(), Fail> {
    let mut out = [FILLER; 1030];
    let mut writer = Writer::over(&mut out);
    writer.open(1, false)?;
    assert!(rt; is_refused(writer.add_call_message(1, &OVERFULL), 30, 5));
    writer.add_call_message(1, &FULL)?;
    assert!(rt; is_refused(writer.add_call_message(1, &[]), 30, 1024));
    assert_eq!(rt; writer.close()?, 1024);
    assert!(rt; is_read(&out, 1024));
    assert!(rt; is_filler(&out[1024..]));
    Ok(())
}

#[test]
fn no_room_for_a_header(rt: HostRuntime) {
    let mut none: [u8; 0] = [];
    assert!(rt; is_refused(Writer::over(&mut none).open(1, false), 30, 0));
    let mut four = [FILLER; 4];
    assert!(rt; is_refused(Writer::over(&mut four).open(1, false), 30, 0));
    assert!(rt; is_filler(&four));
}

fn no_payload(rt: &impl Abort, out: &mut [u8]) -> Result<(), Fail> {
    let mut writer = Writer::over(out);
    writer.open(1, false)?;
    assert!(rt; is_refused(writer.add_call_message(1, &[]), 30, 5));
    assert!(rt; is_refused(writer.close(), 33, 5));
    Ok(())
}

#[test]
fn no_room_for_a_payload(rt: HostRuntime) -> Result<(), Fail> {
    let mut five = [FILLER; 5];
    no_payload(&rt, &mut five)?;
    let mut nine = [FILLER; 9];
    no_payload(&rt, &mut nine)?;
    assert!(rt; begins(&nine, &[0, 0, 0, 1, 0]));
    Ok(())
}

#[test]
fn room_for_an_empty_payload(rt: HostRuntime) -> Result<(), Fail> {
    let mut ten = [FILLER; 10];
    let mut writer = Writer::over(&mut ten);
    writer.open(1, false)?;
    writer.add_call_message(0x0102, &[])?;
    assert_eq!(rt; writer.close()?, 10);
    assert!(rt; begins(&ten, &[0, 0, 0, 1, 0, 2, 1, 2, 0, 0]));
    Ok(())
}

#[test]
fn as_many_payloads_as_fit(rt: HostRuntime) -> Result<(), Fail> {
    let mut out = [FILLER; 1024];
    let mut writer = Writer::over(&mut out);
    writer.open(1, false)?;
    for _ in 0..MOST_PAYLOADS {
        writer.add_call_message(0, &[])?;
    }
    assert!(rt; is_refused(writer.add_call_message(0, &[]), 30, 1020));
    assert_eq!(rt; writer.close()?, 1020);
    assert_eq!(rt; out[4], 202);
    assert!(rt; is_read(&out, 1020));
    Ok(())
}

#[test]
fn counted_numbers(rt: HostRuntime) -> Result<(), Fail> {
    let mut out = [FILLER; 1024];
    let mut writer = Writer::over(&mut out);
    writer.open(1, false)?;
    assert!(rt; is_refused(writer.add_ack(0, &[9; 128]), 32, 5));
    writer.add_ack(0, &[9; 127])?;
    assert_eq!(rt; writer.close()?, 392);
    assert_eq!(rt; out[10], 254);
    assert!(rt; is_read(&out, 392));
    Ok(())
}

#[test]
fn largest_number_of_a_datagram(rt: HostRuntime) -> Result<(), Fail> {
    let mut out = [FILLER; 12];
    let mut writer = Writer::over(&mut out);
    assert!(rt; is_refused(writer.open(LARGEST_NUMBER + 1, false), 32, 0));
    writer.open(LARGEST_NUMBER, false)?;
    writer.add_call_message(0, &[])?;
    assert_eq!(rt; writer.close()?, 10);
    assert!(rt; begins(&out, &[0, 255, 255, 255, 0, 2, 0, 0, 0, 0]));
    Ok(())
}

#[test]
fn largest_number_in_a_payload(rt: HostRuntime) -> Result<(), Fail> {
    let mut out = [FILLER; 40];
    let mut writer = Writer::over(&mut out);
    writer.open(1, false)?;
    assert!(rt; is_refused(writer.add_ack(0, &[5, LARGEST_NUMBER + 1]), 32, 5));
    let entry = Entry {
        number: LARGEST_NUMBER + 1,
        reason: 0,
        data: &[],
    };
    assert!(rt; is_refused(writer.add_nack(0, &[entry]), 32, 5));
    assert!(rt; begins(&out, &[0, 0, 0, 1, 0]));
    Ok(())
}
