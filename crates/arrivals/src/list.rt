// The list book: depth 24, the noted numbers themselves.
ghost use Rattle.arrivals.specs.Slots.{Tidy};

use crate::number::Number;

mod slots;

pub use slots::ListBook;

// How many numbers a window can hold: one for each step of its depth.
const SLOTS: usize = 24;

// The newest number, and the noted numbers in no order, the newest among them. A slot holds one, or is free.
#[derive(Clone, Copy)]
pub struct ListWindow {
    newest: Number,
    slots: [Option<Number>; SLOTS],
    ghost ok: { Tidy 24 newest.value slots },
}
