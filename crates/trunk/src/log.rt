// What came of a list of calls: an entry for each, in order.
ghost use Rattle.std.specs.Prelude.{◌≡◌, map, vec_items, IfOk};
ghost use Rattle.std.specs.Option.{option_map};
ghost use Rattle.datagram.specs.Results.{map_ok};
ghost use Rattle.datagram.specs.Views.{payload_says};
ghost use Rattle.endpoint.specs.Parts.{messages_say};
ghost use Rattle.endpoint.specs.Views as endpoint;
ghost use Rattle.trunk.specs.Acts.{said_by};
ghost use Rattle.trunk.specs.Runs.{tell_arrival};
ghost use Rattle.trunk.specs.Parties.{sent_in, entered, line_of, line_at};
ghost use Rattle.trunk.specs.Views.{side_says, handed_says, arrival_says, arrived, answer_says, entry_says};

use crate::setting::Side;
use datagram::Payload;
use endpoint::{Messages, Refusal, Sent, Settled, Ticked};
use std::alloc::{AllocError, AllocFailed, Global};

// A payload that an arrival handed out.
#[derive(Drop)]
pub struct HandedOut {
    // the type, by its number: most of the 128 have no meaning here
    pub kind: u8,
    pub crv: u16,
    pub data: Vec<u8>,
}

impl HandedOut {
    fn of(alloc: Global, payload: &Payload) -> Result<HandedOut, AllocError>
        ensures { IfOk result (λ handed. handed_says handed ≡ said_by (payload_says payload.now)) }
    {
        Ok(HandedOut {
            kind: payload.content.kind(),
            crv: payload.crv,
            data: payload.data.to_vec(alloc)?,
        })
    }
}

fn hand_out(alloc: Global, messages: Messages) -> Result<Vec<HandedOut>, AllocError>
    ensures { IfOk result (λ all. map handed_says (vec_items all) ≡ map said_by (messages_say messages.entry)) }
{
    let mut all = Vec::new(alloc);
    for payload in messages {
        all.push(HandedOut::of(alloc, &payload)?)?;
    }
    Ok(all)
}

// `fresh` stands beside what only a fresh arrival has, as in the record of the definitions: a reply can come of either, so an enum of both
// would be no plainer.
#[derive(Drop)]
pub struct Arrival {
    pub fresh: bool,
    pub payloads: Vec<HandedOut>,
    pub settled: Option<Settled>,
    pub reply: Option<Sent>,
}

impl Arrival {
    // The same, with what it hands out in its own memory.
    pub(crate) fn of(alloc: Global, arrival: endpoint::Arrival) -> Result<Arrival, AllocError>
        ensures { IfOk result (λ copy. arrival_says copy ≡ tell_arrival (endpoint.arrival_says arrival.entry)) }
    {
        Ok(Arrival {
            fresh: arrival.fresh,
            payloads: hand_out(alloc, arrival.payloads)?,
            settled: arrival.settled,
            reply: arrival.reply,
        })
    }
}

#[derive(Drop)]
pub enum Answer {
    Enrolled,
    Sent(Sent),
    Ticked(Ticked),
    Arrived(Arrival),
}

impl Answer {
    // What an arrival answered, with what it handed out in its own memory.
    pub(crate) fn of_arrival(
        alloc: Global,
        answer: Result<endpoint::Arrival, Refusal>,
    ) -> Result<Result<Answer, Refusal>, AllocError>
        ensures { IfOk result (λ copy. map_ok answer_says copy ≡ map_ok (λ a. arrived (tell_arrival a)) (map_ok endpoint.arrival_says answer.entry)) }
    {
        Ok(match answer {
            Ok(arrival) => Ok(Answer::Arrived(Arrival::of(alloc, arrival)?)),
            Err(refusal) => Err(refusal),
        })
    }

    // The datagram that it tells of, if one was written.
    fn sent(&self) -> Option<Sent>
        ensures { result ≡ sent_in (answer_says self.now) }
    {
        match self {
            Answer::Sent(sent) => Some(*sent),
            Answer::Ticked(Ticked::Resent(sent) | Ticked::KeptAlive(sent)) => Some(*sent),
            Answer::Arrived(arrival) => arrival.reply,
            Answer::Enrolled | Answer::Ticked(_) => None,
        }
    }
}

// `wrote` is the datagram that the call wrote, or empty, as no datagram is. `between` says that the call was accepted and between the two
// ends: a send or a tick of the place at which the end has the other one, or an arrival under the other's address. It is a part of its own,
// as the answer alone does not tell it.
#[derive(Drop)]
pub struct Entry {
    pub side: Side,
    pub answer: Result<Answer, Refusal>,
    pub wrote: Vec<u8>,
    pub between: bool,
}

impl Entry {
    // What the call wrote stands at the front of `output`; `met` says whether it was meant for the other end.
    pub(crate) fn new(
        side: Side,
        answer: Result<Answer, Refusal>,
        mut output: Vec<u8>,
        met: bool,
    ) -> Entry
        ensures { entry_says result ≡ entered (side_says side) (map_ok answer_says answer) (vec_items output) met }
    {
        let sent = answer.as_ref().ok().and_then(|answer| answer.sent());
        output.truncate(sent.map_or(0, |sent| sent.size));
        Entry {
            side,
            between: met && answer.is_ok(),
            answer,
            wrote: output,
        }
    }

    // The same, in no more memory than it needs: a log may be long, and the output buffer of a call is not small.
    pub(crate) fn fitted(self, alloc: Global) -> Result<Entry, AllocError>
        ensures { IfOk result (λ entry. entry_says entry ≡ entry_says self) }
    {
        let Entry {
            side,
            answer,
            wrote,
            between,
        } = self;
        Ok(Entry {
            side,
            answer,
            wrote: wrote.as_slice().to_vec(alloc)?,
            between,
        })
    }

    // The datagram that this end wrote for the other one, if the call was its own.
    pub(crate) fn line_of(&self, side: Side) -> Option<&[u8]>
        ensures { option_map (λ d. d.now) result ≡ line_of (side_says side) (entry_says self.now) }
    {
        let Ok(answer) = &self.answer else {
            return None;
        };
        if side == self.side && self.between && answer.sent().is_some() {
            Some(&self.wrote)
        } else {
            None
        }
    }
}

// Why there is no log. A call is named by its place in the list, counted from 0.
#[derive(Drop)]
pub enum Error {
    // open refuses the start number of that end, by question 1
    StartRefused(Side),
    // both ends have the same address and port
    SamePeer,
    // the entry that the call names did not write a datagram for this end
    NoSuchDatagram(usize),
    // under the other end's address nothing arrives but what that end wrote
    OthersAddress(usize),
    NoMemory,
}

impl From<AllocError> for Error {
    ghost use Rattle.trunk.specs.declared.log.Error.TheVariants.{NoMemory};

    ghost from_gives = { λ _ error. error ≡ NoMemory };

    fn from(_: AllocError) -> Error {
        Error::NoMemory
    }
}

impl<T: Drop> From<AllocFailed<T>> for Error {
    ghost use Rattle.trunk.specs.declared.log.Error.TheVariants.{NoMemory};

    ghost from_gives = { λ _ error. error ≡ NoMemory };

    fn from(_e: AllocFailed<T>) -> Error {
        Error::NoMemory
    }
}

// The datagram that an end wrote for the other one in that entry, if it did.
pub(crate) fn line_at(log: &[Entry], index: usize, side: Side) -> Option<&[u8]>
    ensures { option_map (λ d. d.now) result ≡ line_at (map entry_says log.now) index (side_says side) }
{
    log.get(index)?.line_of(side)
}
