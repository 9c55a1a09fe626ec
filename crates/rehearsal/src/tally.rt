// What the closing lines of a transcript count.
ghost use Rattle.std.specs.Prelude.{◌≡◌, map};
ghost use Rattle.trunk.specs.Views.{side_says, turn_says, answer_says, entry_says};
ghost use Rattle.rehearsal.specs.Counts.{told, concerns, shows, counted, tally};

use endpoint::{Outcome, Settled, Ticked};
use trunk::{Answer, Arrival, Call, Entry, Side, Turn};

// What may become of a send of an end towards the other.
#[derive(Clone, Copy)]
enum Event {
    Sent,
    Resent,
    Handed,
    Acknowledged,
    Rejected,
    Unanswered,
}

// Whether an answer tells of the event.
fn is_told(event: Event, answer: &Answer) -> bool
    ensures { result ≡ told event (answer_says answer.now) }
{
    match (event, answer) {
        (Event::Sent, Answer::Sent(_)) => true,
        (Event::Resent, Answer::Ticked(ticked)) => matches!(ticked, Ticked::Resent(_)),
        (Event::Unanswered, Answer::Ticked(ticked)) => matches!(ticked, Ticked::Unanswered(_)),
        (Event::Handed, Answer::Arrived(arrival)) => !arrival.payloads.is_empty(),
        (Event::Acknowledged, Answer::Arrived(arrival)) => matches!(
            arrival.settled,
            Some(Settled {
                outcome: Outcome::Acknowledged,
                ..
            })
        ),
        (Event::Rejected, Answer::Arrived(arrival)) => matches!(
            arrival.settled,
            Some(Settled {
                outcome: Outcome::Rejected(_),
                ..
            })
        ),
        _ => false,
    }
}

// Whether the event of a send of that end towards the other would be told there.
fn is_concerned(event: Event, side: Side, turn: &Turn, entry: &Entry) -> bool
    ensures { result ≡ concerns event (side_says side) (turn_says turn.now) (entry_says entry.now) }
{
    let own = side == turn.side;
    let arrives = matches!(turn.call, Call::Arrive { .. });
    match event {
        Event::Sent | Event::Resent | Event::Unanswered => own && entry.between,
        Event::Acknowledged | Event::Rejected => own && arrives,
        Event::Handed => side.other() == turn.side && arrives,
    }
}

fn is_shown(event: Event, side: Side, turn: &Turn, entry: &Entry) -> bool
    ensures { result ≡ shows event (side_says side) (turn_says turn.now) (entry_says entry.now) }
{
    match &entry.answer {
        Ok(answer) => is_concerned(event, side, turn, entry) && is_told(event, answer),
        Err(_) => false,
    }
}

// How many calls show the event.
fn count(event: Event, side: Side, turns: &[Turn], entries: &[Entry]) -> usize
    ensures { result ≡ counted event (side_says side) (map turn_says turns.now) (map entry_says entries.now) }
{
    turns
        .iter()
        .zip(entries)
        .filter(|(turn, entry)| is_shown(event, side, turn, entry))
        .count()
}

// What became of the sends of an end towards the other.
#[derive(Clone, Copy)]
pub(crate) struct Tally {
    pub(crate) sent: usize,
    pub(crate) resent: usize,
    pub(crate) handed: usize,
    pub(crate) acknowledged: usize,
    pub(crate) rejected: usize,
    pub(crate) unanswered: usize,
}

pub(crate) fn tally_of(side: Side, turns: &[Turn], entries: &[Entry]) -> Tally
    ensures { result ≡ tally (side_says side) (map turn_says turns.now) (map entry_says entries.now) }
{
    let of = |event| count(event, side, turns, entries);
    Tally {
        sent: of(Event::Sent),
        resent: of(Event::Resent),
        handed: of(Event::Handed),
        acknowledged: of(Event::Acknowledged),
        rejected: of(Event::Rejected),
        unanswered: of(Event::Unanswered),
    }
}
