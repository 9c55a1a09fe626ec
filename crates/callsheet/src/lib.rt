// Makes the call sheet of a capture: its text, whole, record by record, or window by window.
#![tactic(auto)]

mod example;
mod lines;
mod sheet;
mod whole;
mod window;

pub use example::two_records;
pub use lines::{record_lines, stop_line};
pub use sheet::Sheet;
pub use whole::sheet_of;
