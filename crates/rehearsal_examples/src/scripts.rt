// Scripts that are read, and those that are not.
use rehearsal::{Book, Script, Unread};
use std::alloc::Global;
use std::test::Fail;
use trunk::{Call, Side};

// The line at which a script is malformed or ends early; 0 where it is read.
fn flaw(alloc: Global, text: &str) -> usize {
    match Script::read(alloc, text.as_bytes()) {
        Ok(_) => 0,
        Err(Unread::Malformed(line)) => line,
        Err(Unread::EndsEarly(line)) => 1000 + line % 1000,
        Err(Unread::NoMemory) => 2000,
    }
}

// The flaw of one call behind two ends.
fn call_flaw(alloc: Global, call: &str) -> Result<usize, Fail> {
    let text = format!(in alloc; "left 1.2.3.4:5 0 mask\nright 1.2.3.4:6 0 list\n{call}")?;
    Ok(flaw(alloc, text.as_str()))
}

#[test]
fn ends(rt: HostRuntime) {
    for (script, line) in [
        ("", 1001),
        ("\n", 1002),
        ("# nothing\n  \n", 1003),
        ("left 1.2.3.4:5 0 mask", 1002),
        ("left 1.2.3.4:5 0 mask\n", 1002),
        ("right 1.2.3.4:5 0 mask\n", 1),
        ("left 1.2.3.4:5 0 mask\n\nleft 1.2.3.4:6 0 list", 3),
        ("left 1.2.3.4:5 0 mask\nright 1.2.3.4:6 0 list", 0),
        ("Left 1.2.3.4:5 0 mask\n", 1),
        ("left 1.2.3.4:5 0 book\n", 1),
        ("left 1.2.3.4:5 0\n", 1),
        ("left 1.2.3.4:5 0 mask more\n", 1),
    ] {
        assert_eq!(rt; flaw(rt.alloc(), script), line);
    }
}

#[test]
fn peers(rt: HostRuntime) -> Result<(), Fail> {
    for call in [
        "left hear 0 0.0.0.0:0 -",
        "left hear 0 255.255.255.255:65535 -",
        "left hear 0 001.02.3.0004:00005 -",
    ] {
        assert_eq!(rt; call_flaw(rt.alloc(), call)?, 0);
    }
    for call in [
        "left hear 0 256.2.3.4:5 -",
        "left hear 0 1.2.3.4:65536 -",
        "left hear 0 1.2.3:5 -",
        "left hear 0 1.2.3.4.5:5 -",
        "left hear 0 1.2.3.4 -",
        "left hear 0 1.2.3.4: -",
        "left hear 0 1..3.4:5 -",
        "left hear 0 1.2.3.4:5:6 -",
        "left hear 0 +1.2.3.4:5 -",
    ] {
        assert_eq!(rt; call_flaw(rt.alloc(), call)?, 3);
    }
    Ok(())
}

#[test]
fn numbers_and_octets(rt: HostRuntime) -> Result<(), Fail> {
    for call in [
        "left tick 0 18446744073709551615",
        "left tick 000 00000000000000000000000000000000000",
        "left tick 0 0 room 5",
        "left arrive 0 1",
        "left send 0 0 ack 00fFaB room 7",
        "left send 0 0 plain -",
        "left enrol 0 0 1.1.1.1:1 master",
    ] {
        assert_eq!(rt; call_flaw(rt.alloc(), call)?, 0);
    }
    for call in [
        "left tick 0 18446744073709551616",
        "left tick 0 +1",
        "left tick 0 1a",
        "left tick 0",
        "left tick 0 0 room",
        "left tick 0 0 Room 5",
        "left tick 0 0 room 5 5",
        "left arrive 0 0",
        "left send 0 0 plain 00f",
        "left send 0 0 plain 0g",
        "left send 0 0 plain --",
        "left send 0 0 yes -",
        "left enrol 0 0 1.1.1.1:1 master room 5",
        "left enrol 0 0 1.1.1.1:1 boss",
        "up tick 0 0",
        "left poll 0 0",
        "left",
        "left tick 0\t 0",
    ] {
        assert_eq!(rt; call_flaw(rt.alloc(), call)?, 3);
    }
    Ok(())
}

#[test]
fn what_a_script_says(rt: HostRuntime) -> Result<(), Fail> {
    let text =
        "# two ends\n left 10.0.0.1:1720 99999999999 mask # as ever\n\nright 10.0.0.2:1720 7 list\nleft send 1 2 ack 01Fe\nright arrive 3 2 room 9";
    let Ok(script) = Script::read(rt.alloc(), text.as_bytes()) else {
        return Err("unread".into());
    };
    assert_eq!(rt; script.setting().left.start, 4_294_967_295);
    assert_eq!(rt; script.setting().right.start, 7);
    assert_eq!(rt; script.setting().right.peer.address, [10, 0, 0, 2]);
    assert_eq!(rt; script.setting().right.peer.port, 1720);
    assert!(rt; matches!(script.left.book, Book::Mask));
    assert!(rt; matches!(script.right.book, Book::List));
    assert_eq!(rt; script.calls.lines.as_slice(), [5, 6].as_slice());
    let [first, second] = script.calls.turns.as_slice() else {
        return Err("two calls".into());
    };
    assert!(rt; matches!(first.side, Side::Left));
    let Call::Send {
        place,
        time,
        wants_ack,
        body,
        room,
    } = &first.call
    else {
        return Err("a send".into());
    };
    assert_eq!(rt; (*place, *time, *wants_ack, *room), (1, 2, true, 1024));
    assert_eq!(rt; body.as_slice(), [1, 254].as_slice());
    let Call::Arrive { time, entry, room } = second.call else {
        return Err("an arrive".into());
    };
    assert_eq!(rt; (time, entry, room), (3, 1, 9));
    assert_eq!(rt; script.line_at(&trunk::Error::SamePeer), Some(4));
    assert_eq!(rt;
        script.line_at(&trunk::Error::StartRefused(Side::Left)),
        Some(2)
    );
    assert_eq!(rt; script.line_at(&trunk::Error::NoSuchDatagram(1)), Some(6));
    assert_eq!(rt; script.line_at(&trunk::Error::OthersAddress(0)), Some(5));
    assert_eq!(rt; script.line_at(&trunk::Error::NoMemory), None);
    Ok(())
}
