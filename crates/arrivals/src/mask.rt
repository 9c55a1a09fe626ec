// The mask book: depth 64, a bit for each of the last 64 numbers.
ghost use Rattle.std.specs.Prelude.{◌≡◌, ◌%◌};

use crate::number::Number;

mod marks;

pub use marks::MaskBook;

// The newest number, and bit j for the number that is behind it by j; bit 0, the newest itself, is always set.
#[derive(Clone, Copy)]
pub struct MaskWindow {
    newest: Number,
    bits: u64,
    ghost odd: { bits % 2 ≡ 1 },
}
