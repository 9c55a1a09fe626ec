// The lines of a script: what its words say.
ghost use Rattle.std.specs.Prelude.{◌≡◌, IfOk, vec_items};
ghost use Rattle.std.specs.Option.{option_map};
ghost use Rattle.trunk.specs.Views.{call_says, turn_says};
ghost use Rattle.rehearsal.specs.Reading.{texts};
ghost use Rattle.rehearsal.specs.Orders.{room_in, enrol_of, send_of, setup_of, hear_of, enrol_in, send_in, tick_in, arrive_in, hear_in, call_in, turn_in, setup_in};

use crate::word::{
    Book, is, read_book, read_number, read_octets, read_peer, read_role, read_side, read_want,
};
use endpoint::{Peer, Role};
use std::alloc::{AllocError, Global};
use trunk::{Call, End, Turn};

// The length of the output buffer, where no line says it.
const ROOM: usize = 1024;

// What the words behind the arguments of a call say of its output buffer.
fn read_room(words: &[&[u8]]) -> Option<usize>
    ensures { result ≡ room_in (texts words.now) }
{
    match words {
        [] => Some(ROOM),
        [name, length] if is(name, "room") => Some(read_number(length)? as usize),
        _ => None,
    }
}

fn enrol_with(
    place: Option<u64>,
    time: Option<u64>,
    peer: Option<Peer>,
    role: Option<Role>,
) -> Option<Call>
    ensures { option_map call_says result ≡ enrol_of place time peer role }
{
    Some(Call::Enrol {
        place: place? as usize,
        time: time?,
        peer: peer?,
        role: role?,
    })
}

fn read_enrol(words: &[&[u8]]) -> Option<Call>
    ensures { option_map call_says result ≡ enrol_in (texts words.now) }
{
    match words {
        [place, time, peer, role] => enrol_with(
            read_number(place),
            read_number(time),
            read_peer(peer),
            read_role(role),
        ),
        _ => None,
    }
}

fn read_tick(words: &[&[u8]]) -> Option<Call>
    ensures { option_map call_says result ≡ tick_in (texts words.now) }
{
    let [place, time, more @ ..] = words else {
        return None;
    };
    Some(Call::Tick {
        place: read_number(place)? as usize,
        time: read_number(time)?,
        room: read_room(more)?,
    })
}

fn read_send(alloc: Global, words: &[&[u8]]) -> Result<Option<Call>, AllocError>
    ensures { IfOk result (λ found. option_map call_says found ≡ send_in (texts words.now)) }
{
    let [place, time, wish, body, more @ ..] = words else {
        return Ok(None);
    };
    let body = read_octets(alloc, body)?;
    Ok(send_with(
        read_number(place),
        read_number(time),
        read_want(wish),
        body,
        read_room(more),
    ))
}

fn send_with(
    place: Option<u64>,
    time: Option<u64>,
    wants_ack: Option<bool>,
    body: Option<Vec<u8>>,
    room: Option<usize>,
) -> Option<Call>
    ensures { option_map call_says result ≡ send_of place time wants_ack (option_map vec_items body) room }
{
    Some(Call::Send {
        place: place? as usize,
        time: time?,
        wants_ack: wants_ack?,
        body: body?,
        room: room?,
    })
}

// Calls are numbered from 1, and an entry stands for one of them.
fn read_arrive(words: &[&[u8]]) -> Option<Call>
    ensures { option_map call_says result ≡ arrive_in (texts words.now) }
{
    let [time, entry, more @ ..] = words else {
        return None;
    };
    Some(Call::Arrive {
        time: read_number(time)?,
        entry: read_number(entry)?.checked_sub(1)? as usize,
        room: read_room(more)?,
    })
}

fn hear_with(
    time: Option<u64>,
    sender: Option<Peer>,
    octets: Option<Vec<u8>>,
    room: Option<usize>,
) -> Option<Call>
    ensures { option_map call_says result ≡ hear_of time sender (option_map vec_items octets) room }
{
    Some(Call::Hear {
        time: time?,
        sender: sender?,
        octets: octets?,
        room: room?,
    })
}

fn read_hear(alloc: Global, words: &[&[u8]]) -> Result<Option<Call>, AllocError>
    ensures { IfOk result (λ found. option_map call_says found ≡ hear_in (texts words.now)) }
{
    let [time, sender, octets, more @ ..] = words else {
        return Ok(None);
    };
    let octets = read_octets(alloc, octets)?;
    Ok(hear_with(
        read_number(time),
        read_peer(sender),
        octets,
        read_room(more),
    ))
}

fn read_call(alloc: Global, name: &[u8], words: &[&[u8]]) -> Result<Option<Call>, AllocError>
    ensures { IfOk result (λ found. option_map call_says found ≡ call_in name.now (texts words.now)) }
{
    if is(name, "enrol") {
        Ok(read_enrol(words))
    } else if is(name, "send") {
        read_send(alloc, words)
    } else if is(name, "tick") {
        Ok(read_tick(words))
    } else if is(name, "arrive") {
        Ok(read_arrive(words))
    } else if is(name, "hear") {
        read_hear(alloc, words)
    } else {
        Ok(None)
    }
}

pub(crate) fn read_turn(alloc: Global, words: &[&[u8]]) -> Result<Option<Turn>, AllocError>
    ensures { IfOk result (λ found. option_map turn_says found ≡ turn_in (texts words.now)) }
{
    let [end, name, arguments @ ..] = words else {
        return Ok(None);
    };
    let Some(side) = read_side(end) else {
        return Ok(None);
    };
    let call = read_call(alloc, name, arguments)?;
    Ok(call.map(|call| Turn { side, call }))
}

// How a line sets up an end.
#[derive(Clone, Copy)]
pub struct Setup {
    // counted from 1
    pub line: usize,
    pub end: End,
    pub book: Book,
}

// A start number past the largest u32 is kept as that, which open refuses as it refuses the number itself.
fn setup_with(
    line: usize,
    peer: Option<Peer>,
    start: Option<u64>,
    book: Option<Book>,
) -> Option<Setup>
    ensures { result ≡ setup_of line peer start book }
{
    let end = End {
        peer: peer?,
        start: u32::try_from(start?).unwrap_or(u32::MAX),
    };
    let book = book?;
    Some(Setup { line, end, book })
}

pub(crate) fn read_setup(name: &str, line: usize, words: &[&[u8]]) -> Option<Setup>
    ensures { result ≡ setup_in name.now line (texts words.now) }
{
    let [end, peer, start, book] = words else {
        return None;
    };
    if !is(end, name) {
        return None;
    }
    setup_with(line, read_peer(peer), read_number(start), read_book(book))
}
