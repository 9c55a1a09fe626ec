// A rehearsal: a script is read, its calls are run, and what came of them is printed.
ghost use Rattle.std.specs.Prelude.{◌≡◌, map, string_bytes, vec_items};
ghost use Rattle.datagram.specs.Results.{map_ok};
ghost use Rattle.trunk.specs.Runs.{Runs};
ghost use Rattle.trunk.specs.Views.{entry_says, turn_says};
ghost use Rattle.rehearsal.specs.Rehearsals.{Rehearses, ends_of};
ghost use Rattle.rehearsal.specs.Scripts.{script_says};

use crate::script::Script;
use crate::transcript::transcript_of;
use crate::unread::Unread;
use crate::word::Book;
use arrivals::{ListBook, MaskBook};
use std::alloc::{AllocError, Global};
use trunk::{Entry, run};

// Why there is no transcript.
#[derive(Drop)]
pub enum Stop {
    Unread(Unread),
    // the script was read and could not be run: the line that is to blame, and what is wrong there
    Refused(usize, trunk::Error),
    NoMemory,
}

impl From<Unread> for Stop {
    ghost use Rattle.rehearsal.specs.declared.whole.Stop.TheVariants as stop;

    ghost from_gives = { λ unread e. e ≡ stop.Unread unread };

    fn from(unread: Unread) -> Stop {
        Stop::Unread(unread)
    }
}

impl From<AllocError> for Stop {
    ghost use Rattle.rehearsal.specs.declared.whole.Stop.TheVariants as stop;

    ghost from_gives = { λ _ e. e ≡ stop.NoMemory };

    fn from(_: AllocError) -> Stop {
        Stop::NoMemory
    }
}

fn run_script(alloc: Global, script: &Script) -> Result<Vec<Entry>, trunk::Error>
    ensures { Runs (ends_of (script_says script.now)) (map turn_says (vec_items script.now.calls.turns)) (map_ok (λ log. map entry_says (vec_items log)) result) 4 3000 }
{
    let setting = script.setting();
    let turns = script.calls.turns.as_slice();
    match (script.left.book, script.right.book) {
        (Book::Mask, Book::Mask) => run::<MaskBook, MaskBook>(alloc, setting, turns),
        (Book::Mask, Book::List) => run::<MaskBook, ListBook>(alloc, setting, turns),
        (Book::List, Book::Mask) => run::<ListBook, MaskBook>(alloc, setting, turns),
        (Book::List, Book::List) => run::<ListBook, ListBook>(alloc, setting, turns),
    }
}

// The transcript of a script, or what is told instead.
pub fn rehearse(alloc: Global, octets: &[u8]) -> Result<String, Stop>
    ensures { Rehearses octets.now (map_ok string_bytes result) }
{
    let script = Script::read(alloc, octets)?;
    match run_script(alloc, &script) {
        Ok(log) => {
            let turns = script.calls.turns.as_slice();
            let text = transcript_of(alloc, turns, log.as_slice())?;
            Ok(text)
        }
        // No line is to blame for want of memory alone: every call of a script has its line.
        Err(error) => match script.line_at(&error) {
            Some(line) => Err(Stop::Refused(line, error)),
            None => Err(Stop::NoMemory),
        },
    }
}
