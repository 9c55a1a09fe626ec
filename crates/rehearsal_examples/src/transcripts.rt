// A log with every kind of answer, and how it is printed.
use datagram::{Fault, Layer, Question};
use endpoint::{Outcome, Refusal, Sent, Settled, Ticked};
use rehearsal::transcript_of;
use std::alloc::{AllocError, Global};
use std::test::Fail;
use trunk::{Answer, Arrival, Call, Entry, HandedOut, Side, Turn};

const TRANSCRIPT: &str = "1 left tick resent 7 00ff
2 left tick unanswered 16777215
3 left tick silent
4 left tick alive 0 00ff
5 left tick idle
6 left tick refused 12 end 0
7 left tick refused 21 datagram 3
8 left hear fresh payload 6 65535 - payload 1 0 0abc rejected 9 65535 reply 10 00ff
9 left hear again
left sent 0 resent 1 handed 0 acknowledged 0 rejected 0 unanswered 1
right sent 0 resent 0 handed 0 acknowledged 0 rejected 0 unanswered 0
";

// What came of a list of calls of the left end, as it grows.
#[derive(Drop)]
struct Log {
    alloc: Global,
    turns: Vec<Turn>,
    entries: Vec<Entry>,
}

impl Log {
    fn add(&mut self, call: Call, answer: Result<Answer, Refusal>) -> Result<(), AllocError> {
        let wrote = Vec::from_slice(self.alloc, &[0x00, 0xff])?;
        self.turns.push(Turn {
            side: Side::Left,
            call,
        })?;
        self.entries.push(Entry {
            side: Side::Left,
            answer,
            wrote,
            between: true,
        })?;
        Ok(())
    }
}

fn arrived(
    fresh: bool,
    payloads: Vec<HandedOut>,
    settled: Option<Settled>,
    reply: Option<Sent>,
) -> Result<Answer, Refusal> {
    Ok(Answer::Arrived(Arrival {
        fresh,
        payloads,
        settled,
        reply,
    }))
}

fn tick() -> Call {
    Call::Tick {
        place: 0,
        time: 0,
        room: 0,
    }
}

fn hear(alloc: Global) -> Call {
    let sender = endpoint::Peer {
        address: [0; 4],
        port: 0,
    };
    Call::Hear {
        time: 0,
        sender,
        octets: Vec::new(alloc),
        room: 0,
    }
}

#[test]
fn every_answer(rt: HostRuntime) -> Result<(), Fail> {
    let alloc = rt.alloc();
    let mut log = Log {
        alloc,
        turns: Vec::new(alloc),
        entries: Vec::new(alloc),
    };
    let size = 2;
    for ticked in [
        Ticked::Resent(Sent { number: 7, size }),
        Ticked::Unanswered(16_777_215),
        Ticked::Silent,
        Ticked::KeptAlive(Sent { number: 0, size }),
        Ticked::Idle,
    ] {
        log.add(tick(), Ok(Answer::Ticked(ticked)))?;
    }
    log.add(tick(), Err(Refusal::NumbersSpent))?;
    let fault = Fault {
        question: Question::HoldsHeader,
        layer: Layer::Datagram,
        offset: 3,
    };
    log.add(tick(), Err(Refusal::Unreadable(fault)))?;
    let mut payloads = Vec::new(alloc);
    payloads.push(HandedOut {
        kind: 6,
        crv: 65535,
        data: Vec::new(alloc),
    })?;
    payloads.push(HandedOut {
        kind: 1,
        crv: 0,
        data: Vec::from_slice(alloc, &[0x0a, 0xbc])?,
    })?;
    let settled = Some(Settled {
        number: 9,
        outcome: Outcome::Rejected(65535),
    });
    let reply = Some(Sent { number: 10, size });
    log.add(hear(alloc), arrived(true, payloads, settled, reply))?;
    log.add(hear(alloc), arrived(false, Vec::new(alloc), None, None))?;
    let transcript = transcript_of(alloc, log.turns.as_slice(), log.entries.as_slice())?;
    assert_eq!(rt; transcript.as_str(), TRANSCRIPT);
    Ok(())
}
