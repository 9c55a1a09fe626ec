// The lines of a script that have words.
ghost use Rattle.std.specs.Prelude.{◌^◌, ◌<◌, IfOk, MatchOption};
ghost use Rattle.rehearsal.specs.Ahead.{IsOff, IsNext, IsEnd, size};

use crate::word::{cut, words_of};
use std::alloc::{AllocError, Global};

// A line with words, and its number, counted from 1.
#[derive(Drop)]
pub(crate) struct Line<'s> {
    pub(crate) number: usize,
    pub(crate) words: Vec<&'s [u8]>,
}

// The octets of a script from some line on, and how many lines came before.
#[derive(Clone, Copy)]
pub(crate) struct Lines<'s> {
    pub(crate) rest: &'s [u8],
    pub(crate) before: usize,
}

impl<'s> Lines<'s> {
    // Takes off the next line. An empty rest behind the last newline is none.
    fn take_line(&mut self) -> Option<&'s [u8]>
        requires { size self.old < 2 ^ 63 }
        ensures { MatchOption result (IsEnd self.old self.new) (λ line. IsOff self.old self.new line.now) }
    {
        if self.rest.is_empty() {
            return None;
        }
        let (line, rest) = cut(self.rest, b'\n');
        self.rest = rest;
        self.before += 1;
        Some(line)
    }

    // The next line with words; those without are passed over.
    pub(crate) fn next(&mut self, alloc: Global) -> Result<Option<Line<'s>>, AllocError>
        requires { size self.old < 2 ^ 63 }
        ensures { IfOk result (λ o. MatchOption o (IsEnd self.old self.new) (IsNext self.old self.new)) }
    {
        while let Some(line) = self.take_line() {
            let words = words_of(alloc, line)?;
            if !words.is_empty() {
                let number = self.before;
                return Ok(Some(Line { number, words }));
            }
        }
        Ok(None)
    }
}
