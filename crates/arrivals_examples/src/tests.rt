// Histories of notes, run on both books.
use arrivals::{ArrivalBook, Judgement, ListBook, MaskBook, judge_and_note};
use std::process::Abort;

const LAST: u32 = 16_777_215;

// Judges and notes at place 0.
fn says<B: ArrivalBook>(rt: &impl Abort, book: &mut B, number: u32, expected: Judgement) {
    assert_eq!(rt; judge_and_note(book, 0, number), expected);
}

// A copy that was overtaken is fresh when it comes, and a repeat when it comes again.
fn overtaken<B: ArrivalBook + Drop>(rt: &impl Abort) {
    let mut book = B::new();
    says(rt, &mut book, 1, Judgement::Fresh);
    says(rt, &mut book, 2, Judgement::Fresh);
    says(rt, &mut book, 4, Judgement::Fresh);
    says(rt, &mut book, 2, Judgement::Again);
    says(rt, &mut book, 3, Judgement::Fresh);
    says(rt, &mut book, 3, Judgement::Again);
    says(rt, &mut book, 1, Judgement::Again);
    says(rt, &mut book, 4, Judgement::Again);
}

#[test]
fn overtaken_copies(rt: HostRuntime) {
    overtaken::<MaskBook>(&rt);
    overtaken::<ListBook>(&rt);
}

// Numbers wrap from 16,777,215 to 0, and what came before the wrap stays known.
fn wrapped<B: ArrivalBook + Drop>(rt: &impl Abort) {
    let mut book = B::new();
    says(rt, &mut book, LAST - 1, Judgement::Fresh);
    says(rt, &mut book, LAST, Judgement::Fresh);
    says(rt, &mut book, 0, Judgement::Fresh);
    says(rt, &mut book, LAST, Judgement::Again);
    says(rt, &mut book, LAST - 1, Judgement::Again);
    says(rt, &mut book, LAST - 2, Judgement::Fresh);
    says(rt, &mut book, LAST - 2, Judgement::Again);
    says(rt, &mut book, 1, Judgement::Fresh);
}

#[test]
fn wrap_to_zero(rt: HostRuntime) {
    wrapped::<MaskBook>(&rt);
    wrapped::<ListBook>(&rt);
}

// With newest 100 and depth d, 101 - d is the last number within the depth; going up by one forgets it.
fn depth_edge<B: ArrivalBook + Drop>(rt: &impl Abort, last_within: u32, past: u32) {
    let mut book = B::new();
    says(rt, &mut book, 100, Judgement::Fresh);
    says(rt, &mut book, past, Judgement::Old);
    says(rt, &mut book, last_within, Judgement::Fresh);
    says(rt, &mut book, last_within, Judgement::Again);
    says(rt, &mut book, 101, Judgement::Fresh);
    says(rt, &mut book, last_within, Judgement::Old);
    says(rt, &mut book, 100, Judgement::Again);
}

#[test]
fn edges_of_both_depths(rt: HostRuntime) {
    depth_edge::<MaskBook>(&rt, 37, 36);
    depth_edge::<ListBook>(&rt, 77, 76);
}

// With newest 5, 8,388,613 is half the numbers away: old. 8,388,612 is ahead, and a jump to it forgets 5.
fn half_edge<B: ArrivalBook + Drop>(rt: &impl Abort) {
    let mut book = B::new();
    says(rt, &mut book, 5, Judgement::Fresh);
    says(rt, &mut book, 8_388_613, Judgement::Old);
    says(rt, &mut book, 5, Judgement::Again);
    says(rt, &mut book, 8_388_612, Judgement::Fresh);
    says(rt, &mut book, 5, Judgement::Old);
}

#[test]
fn half_the_numbers(rt: HostRuntime) {
    half_edge::<MaskBook>(&rt);
    half_edge::<ListBook>(&rt);
}

// Places and numbers out of range are old and leave no trace, and no place hears of another's notes.
fn ranges<B: ArrivalBook + Drop>(rt: &impl Abort) {
    let mut book = B::new();
    assert_eq!(rt; judge_and_note(&mut book, 32, 7), Judgement::Old);
    assert_eq!(rt; judge_and_note(&mut book, usize::MAX, 7), Judgement::Old);
    assert_eq!(rt; judge_and_note(&mut book, 31, LAST + 1), Judgement::Old);
    assert_eq!(rt; judge_and_note(&mut book, 31, u32::MAX), Judgement::Old);
    assert_eq!(rt; judge_and_note(&mut book, 31, LAST), Judgement::Fresh);
    assert_eq!(rt; judge_and_note(&mut book, 31, LAST), Judgement::Again);
    assert_eq!(rt; book.judge(30, LAST), Judgement::Fresh);
    assert_eq!(rt; book.judge(30, LAST), Judgement::Fresh);
    assert_eq!(rt; book.judge(0, 7), Judgement::Fresh);
}

#[test]
fn places_and_numbers_out_of_range(rt: HostRuntime) {
    ranges::<MaskBook>(&rt);
    ranges::<ListBook>(&rt);
}
