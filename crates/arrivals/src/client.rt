// Code for every arrival book, proved from the trait's contract alone.
ghost use Rattle.arrivals.specs.Meaning.{JudgedAndNoted};

use crate::book::{ArrivalBook, Judgement};

// Judges a number, and notes it if it is fresh.
pub fn judge_and_note<B: ArrivalBook>(book: &mut B, place: usize, number: u32) -> Judgement
    ensures { JudgedAndNoted B.ArrivalBook.depth (B.ArrivalBook.seen book.old) place number result (B.ArrivalBook.seen book.new) }
{
    let judgement = book.judge(place, number);
    if judgement == Judgement::Fresh {
        book.note(place, number);
    }
    judgement
}
