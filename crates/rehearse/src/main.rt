// Runs the script on standard input, and prints its transcript.
#![tactic(auto)]

mod failure;

use failure::Failure;
use rehearsal::rehearse;
use std::io::{Read, Write};
use std::process::ExitCode;

fn read_script(rt: &HostRuntime) -> Result<Vec<u8>, Failure> {
    let mut octets = Vec::new(rt.alloc());
    let _ = rt
        .stdin()
        .read_to_end(&mut octets)
        .map_err(Failure::Reading)?;
    Ok(octets)
}

fn print_transcript(rt: &HostRuntime) -> Result<(), Failure> {
    let script = read_script(rt)?;
    let transcript = rehearse(rt.alloc(), script.as_slice())?;
    let text = transcript.as_str().as_bytes();
    rt.stdout().write_all(text).map_err(Failure::Writing)
}

fn main(rt: HostRuntime) -> ExitCode {
    match print_transcript(&rt) {
        Ok(()) => ExitCode::SUCCESS,
        Err(failure) => {
            let _ = eprintln!(rt; "rehearse: {failure}");
            ExitCode::FAILURE
        }
    }
}
