// The sheet of a capture that comes in windows, so that little of it is in memory at a time.
ghost use Rattle.std.specs.Prelude.{◌≡◌, IfOk, OnErr, string_bytes};
ghost use Rattle.callsheet.specs.Laws.{LawsOfWindows};
ghost use Rattle.callsheet.specs.Sheets.{Begun, ReadTo, Unread};

use crate::lines::COLUMN_LINE;
use crate::window::add_window;
use capture::Records;
use std::alloc::{AllocError, Global};

// `unread` holds the octets that came and that no record was read from: whoever reads the capture adds to its end, so it is no part of a
// model.
#[derive(Drop)]
pub struct Sheet {
    pub unread: Vec<u8>,
    records: u32,
    text: String,
}

impl Sheet {
    // Before the first octet of a capture: its text is the column line.
    pub fn begin(heap: Global) -> Result<Sheet, AllocError>
        ensures begins { IfOk result Begun }
        ensures laws { LawsOfWindows }
    {
        Ok(Sheet {
            unread: Vec::new(heap),
            records: 0,
            text: String::from_str(heap, COLUMN_LINE)?,
        })
    }

    // The lines that the newest window gave.
    pub fn text(&self) -> &str
        ensures { result.now ≡ string_bytes self.now.text }
    {
        self.text.as_str()
    }

    // Makes the lines of all that is whole in `unread`, which keeps the rest, and answers whether more may follow.
    // `last` says that no octet will follow. Want of memory leaves no text, and everything unread.
    pub fn read_window(&mut self, last: bool) -> Result<bool, AllocError>
        ensures reads { IfOk result (ReadTo last self.old self.new) }
        ensures refuses { OnErr result (Unread self.old self.new) }
    {
        let Sheet {
            unread,
            records: before,
            text,
        } = self;
        text.clear();
        let mut records = Records {
            rest: unread.as_slice(),
            before: *before,
        };
        match add_window(text, &mut records, last) {
            Ok(more) => {
                let read = unread.len() - records.rest.len();
                *before = records.before;
                unread.drain(..read);
                Ok(more)
            }
            Err(e) => {
                text.clear();
                Err(e)
            }
        }
    }
}
