// Runs of judge-and-note from a new arrival book, over slices of numbers.
ghost use Rattle.std.specs.Prelude.{◌≡◌};
ghost use Rattle.arrivals.specs.Meaning.{new_book};
ghost use Rattle.bridge.specs.Runs.{Ran, code};

use arrivals::{ArrivalBook, Judgement, ListBook, MaskBook, judge_and_note};

// The octet that a judgement is written as: 0 fresh, 1 again, 2 old.
// A function and no `From<Judgement>`: the octets are this bridge's, and an impl would have to stand in `arrivals`.
fn code_of(judgement: Judgement) -> u8
    ensures { result ≡ code judgement }
{
    judgement as u8
}

// Judges the numbers in order, each at its place, in a new book, notes the fresh ones, and writes each judgement.
// It goes as far as the shortest of the three slices, and answers how far that was.
fn run<B: ArrivalBook + Drop>(places: &[usize], numbers: &[u32], judgements: &mut [u8]) -> usize
    ensures { Ran B.ArrivalBook.depth new_book places.now numbers.now judgements.old result judgements.new }
{
    let mut book = B::new();
    let count = places.len().min(numbers.len()).min(judgements.len());
    // An index and no zip of the three, which C passes as they are: what is written through an adapter of `iter_mut` no proof can know,
    // and `iter_mut` beside two iterators that are stepped by hand is no plainer.
    for i in 0..count {
        judgements[i] = code_of(judge_and_note(&mut book, places[i], numbers[i]));
    }
    count
}

// A run of the mask book. C calls each run by its own name.
#[unsafe(no_mangle)]
pub extern "C" fn arrivals_mask_run(
    places: &[usize],
    numbers: &[u32],
    judgements: &mut [u8],
) -> usize
    ensures { Ran 64 new_book places.now numbers.now judgements.old result judgements.new }
{
    run::<MaskBook>(places, numbers, judgements)
}

// A run of the list book.
#[unsafe(no_mangle)]
pub extern "C" fn arrivals_list_run(
    places: &[usize],
    numbers: &[u32],
    judgements: &mut [u8],
) -> usize
    ensures { Ran 24 new_book places.now numbers.now judgements.old result judgements.new }
{
    run::<ListBook>(places, numbers, judgements)
}
