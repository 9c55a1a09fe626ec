// The transcript: a line for each call, and what became of the sends of each end.
ghost use Rattle.std.specs.Prelude.{◌≡◌, ◌++◌, Some, IfOk, map, string_bytes};
ghost use Rattle.trunk.specs.Views.{side_says, turn_says, entry_says};
ghost use Rattle.rehearsal.specs.Counts.{tally};
ghost use Rattle.rehearsal.specs.Transcript.{call_lines, closing_line, transcript};

use crate::line::{CallLine, side_name};
use crate::tally::{Tally, tally_of};
use std::alloc::{AllocError, Global};
use std::fmt;
use std::fmt::Write;
use trunk::{Entry, Side, Turn};

// The closing line of one end.
#[derive(Clone, Copy)]
struct ClosingLine {
    side: Side,
    tally: Tally,
}

impl fmt::Display for ClosingLine {
    ghost output = { λ s. Some (closing_line (side_says s.side) s.tally) };

    fn fmt<W: fmt::Write>(&self, f: &mut fmt::Formatter<W>) -> fmt::Result {
        let side = side_name(self.side);
        let Tally {
            sent,
            resent,
            handed,
            acknowledged,
            rejected,
            unanswered,
        } = self.tally;
        write!(f, "{side} sent {sent} resent {resent} handed {handed}")?;
        writeln!(
            f,
            " acknowledged {acknowledged} rejected {rejected} unanswered {unanswered}"
        )
    }
}

fn add_call_lines(text: &mut String, turns: &[Turn], entries: &[Entry]) -> Result<(), AllocError>
    ensures { IfOk result (λ u. string_bytes text.new ≡ string_bytes text.old ++ call_lines 1 (map turn_says turns.now) (map entry_says entries.now)) }
{
    for (i, (turn, entry)) in turns.iter().zip(entries).enumerate() {
        let line = CallLine {
            number: i + 1,
            turn,
            entry,
        };
        write!(text, "{line}")?;
    }
    Ok(())
}

fn add_closing_line(
    text: &mut String,
    side: Side,
    turns: &[Turn],
    entries: &[Entry],
) -> Result<(), AllocError>
    ensures { IfOk result (λ u. string_bytes text.new ≡ string_bytes text.old ++ closing_line (side_says side) (tally (side_says side) (map turn_says turns.now) (map entry_says entries.now))) }
{
    let tally = tally_of(side, turns, entries);
    let line = ClosingLine { side, tally };
    write!(text, "{line}")
}

// What `turns` and `entries` say side by side, call by call: an entry is what came of the turn at its place.
pub fn transcript_of(alloc: Global, turns: &[Turn], entries: &[Entry]) -> Result<String, AllocError>
    ensures { IfOk result (λ text. string_bytes text ≡ transcript (map turn_says turns.now) (map entry_says entries.now)) }
{
    let mut text = String::new(alloc);
    add_call_lines(&mut text, turns, entries)?;
    add_closing_line(&mut text, Side::Left, turns, entries)?;
    add_closing_line(&mut text, Side::Right, turns, entries)?;
    Ok(text)
}
