// Prints the call sheet of the capture on standard input.
#![tactic(auto)]

mod failure;

use callsheet::Sheet;
use failure::Failure;
use std::io::{Read, Write};
use std::process::ExitCode;

// Octets that are read at a time. What is in memory does not grow with the capture.
const WINDOW: u64 = 65536;

// Adds the octets of the next window to those that are unread, and answers how many came: none at the capture's end.
fn read_more(rt: &HostRuntime, sheet: &mut Sheet) -> Result<usize, Failure> {
    let mut window = rt.stdin().take(WINDOW);
    window
        .read_to_end(&mut sheet.unread)
        .map_err(Failure::Reading)
}

fn write_text(rt: &HostRuntime, sheet: &Sheet) -> Result<(), Failure> {
    let text = sheet.text().as_bytes();
    rt.stdout().write_all(text).map_err(Failure::Writing)
}

fn print_sheet(rt: &HostRuntime) -> Result<(), Failure> {
    let mut sheet = Sheet::begin(rt.alloc())?;
    let mut came = read_more(rt, &mut sheet)?;
    write_text(rt, &sheet)?;
    // The turns are counted, since a loop without end needs the handle Wait, which no program here has, and nothing says that an
    // input ends.
    for _ in 0..u64::MAX {
        let more = sheet.read_window(came == 0)?;
        write_text(rt, &sheet)?;
        if !more {
            break;
        }
        came = read_more(rt, &mut sheet)?;
    }
    Ok(())
}

fn main(rt: HostRuntime) -> ExitCode {
    match print_sheet(&rt) {
        Ok(()) => ExitCode::SUCCESS,
        Err(failure) => {
            let _ = eprintln!(rt; "sheet: {failure}");
            ExitCode::FAILURE
        }
    }
}
