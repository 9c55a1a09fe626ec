// What a place keeps once it has seen a number, whatever keeps it.
ghost use Rattle.std.specs.Prelude.{◌≡◌, ℕ, ◌≤◌, Bool, true, false};
ghost use Rattle.arrivals.specs.Meaning.{Seen, SoundAt, ahead, blank, upto, judged_number, with_fresh, is_fresh};

use crate::book::Judgement;
use crate::number::Number;

// A window is a newest number, with which of the numbers behind it by less than the depth have been noted.
// A new kind of book has to bring its depth, how the numbers are kept, and the laws below: judging and noting are
// written once, from these. The trait stays inside the crate.
pub(crate) trait Window: Copy {
    ghost DEPTH: { ℕ };

    const DEPTH: u32;

    // what the place has seen: a newest number, and which numbers are held
    ghost seen: { Self → Seen };

    ghost newest: { Self → ℕ };

    ghost held: { Self → ℕ → Bool };

    // The window of a blank place's first number.
    fn first(number: Number) -> Self
        ensures { seen result ≡ with_fresh DEPTH blank number.value };

    fn newest(&self) -> Number
        ensures { result.value ≡ newest self.now };

    // Whether the number is in the set.
    fn holds(&self, number: Number) -> bool
        ensures { result ≡ held self.now number.value };

    // The window moved up to a number ahead. What falls out of its depth is forgotten.
    fn moved_to(self, number: Number) -> Self
        requires { ahead number.value (newest self) ≡ true }
        ensures { seen result ≡ with_fresh DEPTH (seen self) number.value };

    // The same window with one fresh number more that is behind its newest. That it is fresh is a fact of window and number together, which
    // no type of one can say.
    fn plus(self, number: Number) -> Self
        requires behind { ahead number.value (newest self) ≡ false }
        requires fresh { is_fresh (judged_number DEPTH (seen self) number.value) ≡ true }
        ensures { seen result ≡ with_fresh DEPTH (seen self) number.value };

    ghost keeps: { (w : Self) → seen w ≡ upto (newest w) (held w) };

    ghost deep: { (1 ≤ DEPTH) × (DEPTH ≤ 4096) };

    ghost sound: { (w : Self) → SoundAt DEPTH (seen w) };

    final fn judge(&self, number: Number) -> Judgement
        ensures { result ≡ judged_number DEPTH (seen self.now) number.value }
    {
        let newest = self.newest();
        if number.is_ahead(newest) {
            Judgement::Fresh
        } else if self.holds(number) {
            Judgement::Again
        } else if newest.steps_up(number) < Self::DEPTH {
            Judgement::Fresh
        } else {
            Judgement::Old
        }
    }

    // The same window with one fresh number more.
    final fn with(self, number: Number) -> Self
        requires { is_fresh (judged_number DEPTH (seen self) number.value) ≡ true }
        ensures { seen result ≡ with_fresh DEPTH (seen self) number.value }
    {
        if number.is_ahead(self.newest()) {
            self.moved_to(number)
        } else {
            self.plus(number)
        }
    }
}
