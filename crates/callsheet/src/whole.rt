// The sheet of a capture that is in memory as a whole.
ghost use Rattle.std.specs.Prelude.{◌≡◌, IfOk, string_bytes};
ghost use Rattle.callsheet.specs.Text.{sheet_text};

use crate::lines::COLUMN_LINE;
use crate::window::add_window;
use capture::Records;
use std::alloc::{AllocError, Global};

pub fn sheet_of(heap: Global, file: &[u8]) -> Result<String, AllocError>
    ensures { IfOk result (λ text. string_bytes text ≡ sheet_text file.now) }
{
    let mut text = String::from_str(heap, COLUMN_LINE)?;
    let mut records = Records {
        rest: file,
        before: 0,
    };
    let _ = add_window(&mut text, &mut records, true)?;
    Ok(text)
}
