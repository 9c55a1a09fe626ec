// A script: how two ends are set up, and the calls on them.
ghost use Rattle.std.specs.Prelude.{◌≡◌, ◌^◌, ◌<◌};
ghost use Rattle.rehearsal.specs.Ahead.{SetsUp, ahead as lines_ahead, size};
ghost use Rattle.rehearsal.specs.Scripts.{ReadAs, calls_say, calls_in, script_says, script_in, setting_of, line_of};

use crate::lines::Lines;
use crate::order::{Setup, read_setup, read_turn};
use crate::unread::Unread;
use std::alloc::Global;
use trunk::{Setting, Side, Turn};

// Calls, and by which lines of a script they stand.
#[derive(Drop)]
pub struct Calls {
    pub turns: Vec<Turn>,
    pub lines: Vec<usize>,
}

// How both ends are set up, and the calls on them.
#[derive(Drop)]
pub struct Script {
    pub left: Setup,
    pub right: Setup,
    pub calls: Calls,
}

// The next line with words sets up the end of that name.
fn next_setup(alloc: Global, ahead: &mut Lines, name: &str) -> Result<Setup, Unread>
    requires { size ahead.old < 2 ^ 63 }
    ensures { SetsUp name.now ahead.old ahead.new result }
{
    let Some(line) = ahead.next(alloc)? else {
        return Err(Unread::EndsEarly(ahead.before + 1));
    };
    let words = line.words.as_slice();
    read_setup(name, line.number, words).ok_or(Unread::Malformed(line.number))
}

// All that is left are calls.
fn read_calls(alloc: Global, mut ahead: Lines) -> Result<Calls, Unread>
    requires { size ahead < 2 ^ 63 }
    ensures { ReadAs calls_say result (calls_in (lines_ahead ahead.entry)) }
{
    let mut turns = Vec::new(alloc);
    let mut lines = Vec::new(alloc);
    while let Some(line) = ahead.next(alloc)? {
        let words = line.words.as_slice();
        let Some(turn) = read_turn(alloc, words)? else {
            return Err(Unread::Malformed(line.number));
        };
        turns.push(turn)?;
        lines.push(line.number)?;
    }
    Ok(Calls { turns, lines })
}

impl Script {
    pub fn read(alloc: Global, octets: &[u8]) -> Result<Script, Unread>
        ensures { ReadAs script_says result (script_in octets.now) }
    {
        let mut ahead = Lines {
            rest: octets,
            before: 0,
        };
        let left = next_setup(alloc, &mut ahead, "left")?;
        let right = next_setup(alloc, &mut ahead, "right")?;
        let calls = read_calls(alloc, ahead)?;
        Ok(Script { left, right, calls })
    }

    pub fn setting(&self) -> Setting
        ensures { result ≡ setting_of (script_says self.now) }
    {
        Setting {
            left: self.left.end,
            right: self.right.end,
        }
    }

    // The line that an error of a run is told at; none for want of memory, or for a call that this script has not.
    pub fn line_at(&self, error: &trunk::Error) -> Option<usize>
        ensures { result ≡ line_of (script_says self.now) error.now }
    {
        match error {
            trunk::Error::StartRefused(Side::Left) => Some(self.left.line),
            trunk::Error::StartRefused(Side::Right) | trunk::Error::SamePeer => {
                Some(self.right.line)
            }
            trunk::Error::NoSuchDatagram(call) | trunk::Error::OthersAddress(call) => {
                self.calls.lines.get(*call).copied()
            }
            trunk::Error::NoMemory => None,
        }
    }
}
