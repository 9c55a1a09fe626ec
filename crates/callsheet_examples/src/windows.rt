// A capture that comes in windows gives the sheet that it gives as a whole.
use callsheet::{Sheet, sheet_of};
use std::alloc::{AllocError, Global};
use std::test::Fail;

// The sheet of two windows; the third, to which nothing comes, is the last. They are written out, since a loop over an array of
// these slices, which have lifetimes of their own, gets no proof.
fn in_two(heap: Global, first: &[u8], second: &[u8]) -> Result<String, AllocError> {
    let mut sheet = Sheet::begin(heap)?;
    let mut whole = String::from_str(heap, sheet.text())?;
    sheet.unread.extend_from_slice(first)?;
    let mut more = sheet.read_window(false)?;
    whole.push_str(sheet.text())?;
    if more {
        sheet.unread.extend_from_slice(second)?;
        more = sheet.read_window(false)?;
        whole.push_str(sheet.text())?;
    }
    if more {
        let _ = sheet.read_window(true)?;
        whole.push_str(sheet.text())?;
    }
    Ok(whole)
}

#[test]
fn cut_at_every_octet(rt: HostRuntime) -> Result<(), Fail> {
    let octets = callsheet::two_records();
    let expected = sheet_of(rt.alloc(), &octets)?;
    for at in 0..=octets.len() {
        let (first, second) = octets.split_at(at);
        let sheet = in_two(rt.alloc(), first, second)?;
        assert_eq!(rt; sheet.as_str(), expected.as_str());
    }
    Ok(())
}

#[test]
fn a_stop_in_the_first_window(rt: HostRuntime) -> Result<(), Fail> {
    let mut octets = callsheet::two_records();
    octets[2] = 2;
    let sheet = in_two(rt.alloc(), &octets[0..30], &octets[30..])?;
    assert_eq!(rt;
        sheet.as_str(),
        "rec sec from num type call len\nstop 41 1\n"
    );
    Ok(())
}

#[test]
fn what_is_not_whole_waits(rt: HostRuntime) -> Result<(), Fail> {
    let octets = callsheet::two_records();
    let mut sheet = Sheet::begin(rt.alloc())?;
    sheet.unread.extend_from_slice(&octets[0..30])?;
    assert!(rt; sheet.read_window(false)?);
    assert_eq!(rt; sheet.text(), "1 60 10.0.0.7:1720 5 1 1 2\n");
    assert_eq!(rt; sheet.unread.len(), 4);
    assert!(rt; sheet.read_window(false)?);
    assert_eq!(rt; sheet.text().len(), 0);
    assert!(rt; !sheet.read_window(true)?);
    assert_eq!(rt; sheet.text(), "stop 40 2\n");
    Ok(())
}
