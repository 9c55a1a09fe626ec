// The lines of one window: the octets of a capture that are at hand.
ghost use Rattle.std.specs.Prelude.{◌≡◌, IfOk, string_bytes};
ghost use Rattle.capture.specs.Views.{place_says};
ghost use Rattle.callsheet.specs.Windows.{window, window_at, preceded};

use crate::lines::{StopLine, add_lines};
use capture::Records;
use std::alloc::AllocError;

// Adds the lines of all that is whole in a window, and answers whether octets to come may add to them. The last window is
// followed by nothing.
pub(crate) fn add_window(
    text: &mut String,
    records: &mut Records,
    last: bool,
) -> Result<bool, AllocError>
    ensures { IfOk result (λ more. preceded (string_bytes text.old) (window_at last (place_says records.old)) ≡ window (string_bytes text.new) more (place_says records.new)) }
{
    // What the lines of a record begin with, one record after another: printed again for each line it took twice the time.
    let mut front = String::new(*text.allocator());
    loop {
        match records.next() {
            Ok(Some(record)) => add_lines(text, &mut front, records.before, &record)?,
            Ok(None) => return Ok(!last),
            Err(stop) => {
                if !last && stop.question.is_turnable() {
                    return Ok(true);
                }
                let line = StopLine(stop);
                write!(text, "{line}")?;
                return Ok(false);
            }
        }
    }
}
