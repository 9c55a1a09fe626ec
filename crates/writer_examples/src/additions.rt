// Each kind of addition, octet by octet, and data by the number of its type.
use crate::expected::{FILLER, begins, is_refused};
use datagram::{Alive, Entry, NonStandard};
use std::test::Fail;
use writer::Writer;

// Made in a function of its own, since a reference that is absent ties its value to nothing that the caller holds.
fn calling<'c>() -> Alive<'c> {
    Alive {
        validity: 0,
        wants_reply: true,
        cookie: None,
    }
}

fn with_cookie(cookie: &[u8]) -> Alive {
    Alive {
        validity: 0x0102,
        wants_reply: false,
        cookie: Some(cookie),
    }
}

#[test]
fn an_ack(rt: HostRuntime) -> Result<(), Fail> {
    let mut out = [FILLER; 40];
    let mut writer = Writer::over(&mut out);
    writer.open(9, false)?;
    writer.add_ack(0, &[5])?;
    assert_eq!(rt; writer.close()?, 14);
    assert!(rt; begins(&out, &[0, 0, 0, 9, 0, 8, 0, 0, 0, 4, 2, 0, 0, 5]));
    Ok(())
}

#[test]
fn a_nack(rt: HostRuntime) -> Result<(), Fail> {
    let mut out = [FILLER; 40];
    let mut writer = Writer::over(&mut out);
    writer.open(9, false)?;
    let entry = Entry {
        number: 0x010203,
        reason: 0x0405,
        data: &[0x06, 0x07],
    };
    writer.add_nack(0x0809, &[entry])?;
    assert_eq!(rt; writer.close()?, 19);
    assert!(rt;
        begins(
            &out,
            &[0, 0, 0, 9, 0, 10, 8, 9, 0, 9, 2, 1, 2, 3, 4, 5, 2, 6, 7],
        )
    );
    Ok(())
}

#[test]
fn an_alive_that_wants_a_reply(rt: HostRuntime) -> Result<(), Fail> {
    let mut out = [FILLER; 40];
    let mut writer = Writer::over(&mut out);
    writer.open(9, false)?;
    writer.add_alive(0, calling())?;
    assert_eq!(rt; writer.close()?, 14);
    assert!(rt; begins(&out, &[0, 0, 0, 9, 0, 6, 0, 0, 0, 4, 0, 0, 0, 1]));
    Ok(())
}

#[test]
fn a_cookie_and_an_empty_one(rt: HostRuntime) -> Result<(), Fail> {
    let mut out = [FILLER; 40];
    let mut writer = Writer::over(&mut out);
    writer.open(9, false)?;
    writer.add_alive(0, with_cookie(&[]))?;
    writer.add_alive(0, with_cookie(&[0xC0]))?;
    assert_eq!(rt; writer.close()?, 24);
    assert!(rt;
        begins(
            &out,
            &[
                0, 0, 0, 9, 1, 6, 0, 0, 0, 4, 1, 2, 0, 0, 6, 0, 0, 0, 5, 1, 2, 0, 2, 0xC0,
            ],
        )
    );
    Ok(())
}

#[test]
fn a_non_standard_payload(rt: HostRuntime) -> Result<(), Fail> {
    let mut out = [FILLER; 40];
    let mut writer = Writer::over(&mut out);
    writer.open(9, false)?;
    let content = NonStandard {
        oid: &[0x2B, 0x06],
        free: &[0x01],
    };
    writer.add_non_standard(3, content)?;
    assert_eq!(rt; writer.close()?, 15);
    assert!(rt;
        begins(
            &out,
            &[0, 0, 0, 9, 0, 12, 0, 3, 0, 5, 0, 2, 0x2B, 0x06, 0x01],
        )
    );
    Ok(())
}

#[test]
fn data_by_type(rt: HostRuntime) -> Result<(), Fail> {
    let mut out = [FILLER; 40];
    let mut writer = Writer::over(&mut out);
    writer.open(9, false)?;
    assert!(rt; is_refused(writer.add_by_type(2, 0, &[]), 31, 5));
    assert!(rt; is_refused(writer.add_by_type(4, 0, &[2, 0, 0]), 32, 5));
    assert!(rt; is_refused(writer.add_by_type(4, 0, &[3, 0, 0, 5]), 32, 5));
    writer.add_by_type(4, 0, &[2, 0, 0, 5])?;
    assert_eq!(rt; writer.close()?, 14);
    assert!(rt; begins(&out, &[0, 0, 0, 9, 0, 8, 0, 0, 0, 4, 2, 0, 0, 5]));
    Ok(())
}

#[test]
fn an_entry_with_too_much_data(rt: HostRuntime) -> Result<(), Fail> {
    let mut out = [FILLER; 512];
    let mut writer = Writer::over(&mut out);
    writer.open(9, false)?;
    let long = Entry {
        number: 1,
        reason: 0,
        data: &[0; 256],
    };
    assert!(rt; is_refused(writer.add_nack(0, &[long]), 32, 5));
    assert!(rt; begins(&out, &[0, 0, 0, 9, 0]));
    Ok(())
}
