// One trunk datagram, written, refused once on the way, closed and read back.
use crate::expected::{FILLER, is_filler, is_refused};
use datagram::{Alive, Content, Datagram, Payload};
use std::process::Abort;
use std::test::Fail;
use writer::Writer;

const SETUP_ONE: [u8; 6] = [0x08, 0x02, 0x00, 0x01, 0x05, 0x04];

const SETUP_TWO: [u8; 4] = [0x08, 0x02, 0x00, 0x02];

const SETUP_THREE: [u8; 5] = [0x08, 0x02, 0x80, 0x03, 0x05];

// With its header more than is left of fifty octets.
const LONG_SETUP: [u8; 12] = [0x08; 12];

const COOKIE: [u8; 2] = [0xC0, 0x0C];

const ALIVE: Alive = Alive {
    validity: 30,
    wants_reply: true,
    cookie: Some(&COOKIE),
};

fn write(rt: &impl Abort, out: &mut [u8]) -> Result<usize, Fail> {
    let mut writer = Writer::over(out);
    writer.open(7, true)?;
    writer.add_call_message(1, &SETUP_ONE)?;
    writer.add_call_message(2, &SETUP_TWO)?;
    writer.add_alive(0, ALIVE)?;
    assert!(rt; is_refused(writer.add_call_message(4, &LONG_SETUP), 30, 36));
    writer.add_call_message(0x8003, &SETUP_THREE)?;
    Ok(writer.close()?)
}

fn is_setup(payload: Option<Payload>, crv: u16, setup: &[u8]) -> bool {
    payload.is_some_and(|payload| {
        payload.crv == crv
            && matches!(payload.content, Content::CallMessage(message) if message == setup)
    })
}

fn is_alive(payload: Option<Payload>) -> bool {
    let Some(
        Payload {
            crv: 0,
            content: Content::IAmAlive(
                Alive {
                    validity: 30,
                    wants_reply: true,
                    cookie: Some(cookie),
                },
            ),
            ..
        },
    ) = payload
    else {
        return false;
    };
    cookie == &COOKIE[..]
}

fn check_read(rt: &impl Abort, octets: &[u8]) -> Result<(), Fail> {
    let datagram = Datagram::read(octets)?;
    assert_eq!(rt; datagram.number, 7);
    assert!(rt; datagram.wants_ack);
    let mut payloads = datagram.payloads;
    assert!(rt; is_setup(payloads.next(), 1, &SETUP_ONE));
    assert!(rt; is_setup(payloads.next(), 2, &SETUP_TWO));
    assert!(rt; is_alive(payloads.next()));
    assert!(rt; is_setup(payloads.next(), 0x8003, &SETUP_THREE));
    assert!(rt; payloads.next().is_none());
    Ok(())
}

#[test]
fn each_call_keeps_its_message(rt: HostRuntime) -> Result<(), Fail> {
    let mut out = [FILLER; 50];
    let size = write(&rt, &mut out)?;
    assert_eq!(rt; size, 46);
    let (octets, behind) = out.split_at_checked(46).ok_or("longer than the buffer")?;
    assert!(rt; is_filler(behind));
    check_read(&rt, octets)
}
