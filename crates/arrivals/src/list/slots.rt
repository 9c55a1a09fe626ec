// The list book's window: how its slots are searched and filled.
ghost use Rattle.std.specs.Prelude.{◌≡◌, ℕ, ◌+◌, ◌<◌, ◌==◌, map, if◌then◌else◌, nat_eq};
ghost use Rattle.arrivals.specs.Slots.{times, taken, keep_near, held};
ghost use Rattle.arrivals.specs.Lists.{list_seen};
ghost use Rattle.std.proofs.Common.{refl, lit≤};
ghost use Rattle.arrivals.specs.ListLaws.{list_sound};

use super::{ListWindow, SLOTS};
use crate::number::Number;
use crate::table::Table;
use crate::window::Window;
use search::{Keyed, find};

// A number is kept under itself.
impl Keyed<Number> for Number {
    ghost under = { λ n key. n.value == key.value };

    fn is_under(&self, key: &Number) -> bool {
        self == key
    }
}

// The same with the number in a free slot.
fn put(mut slots: [Option<Number>; SLOTS], number: Number) -> [Option<Number>; SLOTS]
    requires { taken slots < 24 }
    ensures { (k : ℕ) → times k result ≡ (if nat_eq number.value k then 1 else 0) + times k slots }
{
    // By its index: a loop over `iter_mut` that stops at the first free slot is no plainer.
    if let Some(i) = slots.iter().position(Option::is_none) {
        slots[i] = Some(number);
    }
    slots
}

// The slot, free if its number is behind `newest` by the depth or more.
fn keep_near(slot: Option<Number>, newest: Number) -> Option<Number>
    ensures { result ≡ keep_near 24 newest.value slot }
{
    slot.filter(|n| newest.steps_up(*n) < ListWindow::DEPTH)
}

// Forgets the numbers that are behind `newest` by the depth or more.
// A loop and no `slots.map(..)`, which is no plainer, and with which a list book's note and judge took 2.4 times as long.
fn forget_far(mut slots: [Option<Number>; SLOTS], newest: Number) -> [Option<Number>; SLOTS]
    ensures { result ≡ map (keep_near 24 newest.value) slots }
{
    for slot in slots.iter_mut() {
        *slot = keep_near(*slot, newest);
    }
    slots
}

impl Window for ListWindow {
    ghost DEPTH = { 24 };

    const DEPTH: u32 = SLOTS as u32;

    ghost seen = { list_seen };

    ghost newest = { λ w. w.newest.value };

    ghost held = { λ w. held w.slots };

    ghost keeps = { λ w. refl };

    ghost deep = { (lit≤ tt, lit≤ tt) };

    ghost sound = { λ w. list_sound 24 w.newest.value w.slots (lit≤ tt) w.ok };

    fn first(number: Number) -> ListWindow {
        ListWindow {
            newest: number,
            slots: put([None; SLOTS], number),
        }
    }

    fn newest(&self) -> Number {
        self.newest
    }

    fn holds(&self, number: Number) -> bool {
        find(&self.slots, &number).is_some()
    }

    fn moved_to(self, number: Number) -> ListWindow {
        let kept = forget_far(self.slots, number);
        ListWindow {
            newest: number,
            slots: put(kept, number),
        }
    }

    fn plus(self, number: Number) -> ListWindow {
        ListWindow {
            newest: self.newest,
            slots: put(self.slots, number),
        }
    }
}

pub type ListBook = Table<ListWindow>;
