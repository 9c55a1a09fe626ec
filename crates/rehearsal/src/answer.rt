// What stands behind the word of a call: what it answered.
ghost use Rattle.std.specs.Prelude.{◌≡◌, Some, flat_map, map};
ghost use Rattle.trunk.specs.Views.{handed_says, arrival_says, entry_says};
ghost use Rattle.rehearsal.specs.Transcript.{written, tick_text, freshness, payload_text, settled_text, reply_text, arrival_text, layer_word, refusal_text, report_text};

use crate::hex::{Pairs, PairsOrNone};
use endpoint::{Layer, Outcome, Refusal, Sent, Settled, Ticked};
use std::fmt;
use trunk::{Answer, Arrival, Entry, HandedOut};

// A datagram that was written, behind the word that says what for.
#[derive(Clone, Copy)]
struct Written<'a> {
    word: &'a str,
    sent: Sent,
    octets: &'a [u8],
}

impl fmt::Display for Written<'_> {
    ghost output = { λ s. Some (written s.word.now s.sent s.octets.now) };

    fn fmt<W: fmt::Write>(&self, f: &mut fmt::Formatter<W>) -> fmt::Result {
        let word = self.word;
        let pairs = Pairs(self.octets);
        write!(f, " {word} {} {pairs}", self.sent.number)
    }
}

#[derive(Clone, Copy)]
struct TickText<'a> {
    ticked: Ticked,
    octets: &'a [u8],
}

impl fmt::Display for TickText<'_> {
    ghost output = { λ s. Some (tick_text s.ticked s.octets.now) };

    fn fmt<W: fmt::Write>(&self, f: &mut fmt::Formatter<W>) -> fmt::Result {
        let octets = self.octets;
        match self.ticked {
            Ticked::Resent(sent) => {
                let word = "resent";
                let resent = Written { word, sent, octets };
                write!(f, "{resent}")
            }
            Ticked::Unanswered(number) => write!(f, " unanswered {number}"),
            Ticked::Silent => write!(f, " silent"),
            Ticked::KeptAlive(sent) => {
                let word = "alive";
                let alive = Written { word, sent, octets };
                write!(f, "{alive}")
            }
            Ticked::Idle => write!(f, " idle"),
        }
    }
}

#[derive(Clone, Copy)]
struct PayloadText<'a>(&'a HandedOut);

impl fmt::Display for PayloadText<'_> {
    ghost output = { λ s. Some (payload_text (handed_says s.0.now)) };

    fn fmt<W: fmt::Write>(&self, f: &mut fmt::Formatter<W>) -> fmt::Result {
        let handed = self.0;
        let data = PairsOrNone(handed.data.as_slice());
        write!(f, " payload {} {} {data}", handed.kind, handed.crv)
    }
}

#[derive(Clone, Copy)]
struct PayloadTexts<'a>(&'a [HandedOut]);

impl fmt::Display for PayloadTexts<'_> {
    ghost output = { λ s. Some (flat_map payload_text (map handed_says s.0.now)) };

    fn fmt<W: fmt::Write>(&self, f: &mut fmt::Formatter<W>) -> fmt::Result {
        for handed in self.0 {
            let payload = PayloadText(handed);
            write!(f, "{payload}")?;
        }
        Ok(())
    }
}

#[derive(Clone, Copy)]
struct SettledText(Option<Settled>);

impl fmt::Display for SettledText {
    ghost output = { λ s. Some (settled_text s.0) };

    fn fmt<W: fmt::Write>(&self, f: &mut fmt::Formatter<W>) -> fmt::Result {
        let Some(settled) = self.0 else {
            return Ok(());
        };
        match settled.outcome {
            Outcome::Acknowledged => write!(f, " acknowledged {}", settled.number),
            Outcome::Rejected(reason) => write!(f, " rejected {} {reason}", settled.number),
        }
    }
}

#[derive(Clone, Copy)]
struct ReplyText<'a> {
    reply: Option<Sent>,
    octets: &'a [u8],
}

impl fmt::Display for ReplyText<'_> {
    ghost output = { λ s. Some (reply_text s.reply s.octets.now) };

    fn fmt<W: fmt::Write>(&self, f: &mut fmt::Formatter<W>) -> fmt::Result {
        let Some(sent) = self.reply else {
            return Ok(());
        };
        let reply = Written {
            word: "reply",
            sent,
            octets: self.octets,
        };
        write!(f, "{reply}")
    }
}

fn freshness_word(fresh: bool) -> &'static str
    ensures { result.now ≡ freshness fresh }
{
    if fresh { "fresh" } else { "again" }
}

#[derive(Clone, Copy)]
struct ArrivalText<'a> {
    arrival: &'a Arrival,
    octets: &'a [u8],
}

impl fmt::Display for ArrivalText<'_> {
    ghost output = { λ s. Some (arrival_text (arrival_says s.arrival.now) s.octets.now) };

    fn fmt<W: fmt::Write>(&self, f: &mut fmt::Formatter<W>) -> fmt::Result {
        let arrival = self.arrival;
        let freshness = freshness_word(arrival.fresh);
        let payloads = PayloadTexts(arrival.payloads.as_slice());
        let settled = SettledText(arrival.settled);
        let reply = ReplyText {
            reply: arrival.reply,
            octets: self.octets,
        };
        write!(f, " {freshness}{payloads}{settled}{reply}")
    }
}

fn layer_name(layer: Layer) -> &'static str
    ensures { result.now ≡ layer_word layer }
{
    match layer {
        Layer::End => "end",
        Layer::Datagram => "datagram",
        Layer::Payload => "payload",
        Layer::Structure => "structure",
    }
}

#[derive(Clone, Copy)]
struct RefusalText(Refusal);

impl fmt::Display for RefusalText {
    ghost output = { λ s. Some (refusal_text s.0) };

    fn fmt<W: fmt::Write>(&self, f: &mut fmt::Formatter<W>) -> fmt::Result {
        let refusal = self.0;
        let number = refusal.number();
        let layer = layer_name(refusal.layer());
        let offset = refusal.offset();
        write!(f, " refused {number} {layer} {offset}")
    }
}

// All of an entry's answer.
#[derive(Clone, Copy)]
pub(crate) struct AnswerText<'a>(pub(crate) &'a Entry);

impl fmt::Display for AnswerText<'_> {
    ghost output = { λ s. Some (report_text (entry_says s.0.now)) };

    fn fmt<W: fmt::Write>(&self, f: &mut fmt::Formatter<W>) -> fmt::Result {
        let octets = self.0.wrote.as_slice();
        match &self.0.answer {
            Ok(Answer::Enrolled) => write!(f, " enrolled"),
            Ok(Answer::Sent(sent)) => {
                let word = "sent";
                let sent = Written {
                    word,
                    sent: *sent,
                    octets,
                };
                write!(f, "{sent}")
            }
            Ok(Answer::Ticked(ticked)) => {
                let tick = TickText {
                    ticked: *ticked,
                    octets,
                };
                write!(f, "{tick}")
            }
            Ok(Answer::Arrived(arrival)) => {
                let arrival = ArrivalText { arrival, octets };
                write!(f, "{arrival}")
            }
            Err(refusal) => {
                let refusal = RefusalText(*refusal);
                write!(f, "{refusal}")
            }
        }
    }
}
