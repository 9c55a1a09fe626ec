// A writer that is not open, or closed already, and an Ack that is asked for in vain.
use crate::expected::{FILLER, begins, is_filler, is_refused};
use std::test::Fail;
use writer::Writer;

#[test]
fn not_open_yet(rt: HostRuntime) {
    let mut out = [FILLER; 40];
    let mut writer = Writer::over(&mut out);
    assert!(rt; is_refused(writer.add_call_message(1, &[1]), 30, 0));
    assert!(rt; is_refused(writer.close(), 33, 0));
    assert!(rt; is_filler(&out));
}

#[test]
fn open_already(rt: HostRuntime) -> Result<(), Fail> {
    let mut out = [FILLER; 40];
    let mut writer = Writer::over(&mut out);
    writer.open(1, false)?;
    assert!(rt; is_refused(writer.open(2, false), 30, 5));
    assert!(rt; begins(&out, &[0, 0, 0, 1, 0]));
    Ok(())
}

#[test]
fn closed_already(rt: HostRuntime) -> Result<(), Fail> {
    let mut out = [FILLER; 40];
    let mut writer = Writer::over(&mut out);
    writer.open(1, false)?;
    writer.add_call_message(1, &[7])?;
    assert_eq!(rt; writer.close()?, 11);
    assert!(rt; is_refused(writer.add_call_message(1, &[7]), 30, 11));
    assert!(rt; is_refused(writer.close(), 33, 11));
    assert!(rt; is_refused(writer.open(2, false), 30, 11));
    assert!(rt; begins(&out, &[0, 0, 0, 1, 0, 2, 0, 1, 0, 1, 7]));
    Ok(())
}

#[test]
fn an_ack_in_vain(rt: HostRuntime) -> Result<(), Fail> {
    let mut out = [FILLER; 40];
    let mut writer = Writer::over(&mut out);
    writer.open(1, true)?;
    writer.add_ack(0, &[5])?;
    assert!(rt; is_refused(writer.close(), 33, 14));
    writer.add_call_message(1, &[])?;
    assert_eq!(rt; writer.close()?, 19);
    assert!(rt;
        begins(
            &out,
            &[1, 0, 0, 1, 1, 8, 0, 0, 0, 4, 2, 0, 0, 5, 2, 0, 1, 0, 0],
        )
    );
    Ok(())
}
