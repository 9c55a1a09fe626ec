// The mask book's window: how its bits are read and set.
ghost use Rattle.arrivals.specs.Masks.{mask_seen, bit};
ghost use Rattle.arrivals.specs.Windows.{marked};
ghost use Rattle.std.proofs.Common.{lit≤};
ghost use Rattle.arrivals.specs.WindowLaws.{window_is, window_sound};
ghost use Rattle.arrivals.specs.BitLaws.{bit_odd};

use super::MaskWindow;
use crate::number::Number;
use crate::table::Table;
use crate::window::Window;

impl Window for MaskWindow {
    ghost DEPTH = { 64 };

    const DEPTH: u32 = 64;

    ghost seen = { mask_seen };

    ghost newest = { λ w. w.newest.value };

    ghost held = { λ w. marked 64 w.newest.value (bit w.bits) };

    ghost keeps = { λ w. window_is 64 w.newest.value (bit w.bits) };

    ghost deep = { (lit≤ tt, lit≤ tt) };

    ghost sound = { λ w. window_sound 64 w.newest.value (bit w.bits) (lit≤ tt) (lit≤ tt) w.newest.in_range (bit_odd w.bits w.odd) };

    fn first(number: Number) -> MaskWindow {
        MaskWindow {
            newest: number,
            bits: 1,
        }
    }

    fn newest(&self) -> Number {
        self.newest
    }

    fn holds(&self, number: Number) -> bool {
        let lag = self.newest.steps_up(number);
        lag < Self::DEPTH && self.bits >> lag & 1 == 1
    }

    fn moved_to(self, number: Number) -> MaskWindow {
        let up = number.steps_up(self.newest);
        MaskWindow {
            newest: number,
            bits: self.bits.checked_shl(up).unwrap_or(0) | 1,
        }
    }

    fn plus(self, number: Number) -> MaskWindow {
        let lag = self.newest.steps_up(number);
        MaskWindow {
            newest: self.newest,
            bits: self.bits | (1 << lag),
        }
    }
}

pub type MaskBook = Table<MaskWindow>;
