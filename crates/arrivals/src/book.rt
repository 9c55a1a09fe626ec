// What an arrival book answers and keeps, whatever kind it is.
ghost use Rattle.std.specs.Prelude.{◌≡◌, ℕ, ◌≤◌};
ghost use Rattle.arrivals.specs.Meaning.{Book, Sound, judged, noted, new_book};

// What a number is to a place: not yet seen, seen before, or too far behind to tell.
#[derive(Clone, Copy, PartialEq, Eq, Debug)]
pub enum Judgement {
    Fresh,
    Again,
    Old,
}

// An arrival book remembers, place by place, which numbers came, though they wrap and come out of order.
// The depth is how far behind the newest number a number can still be told fresh. Place and number stay two plain arguments: one is the
// neighbour's, the other what its datagram says, and any of either is answered.
pub trait ArrivalBook {
    ghost depth: { ℕ };

    // what the book has seen, place by place
    ghost seen: { Self → Book };

    fn new() -> Self
        ensures { seen result ≡ new_book };

    fn judge(&self, place: usize, number: u32) -> Judgement
        ensures judges { result ≡ judged depth (seen self.now) place number }
        ensures sound { Sound depth (seen self.now) }
        ensures deep { (1 ≤ depth) × (depth ≤ 4096) };

    fn note(&mut self, place: usize, number: u32)
        ensures { seen self.new ≡ noted depth (seen self.old) place number };

    ghost bounded: { (1 ≤ depth) × (depth ≤ 4096) };
}
