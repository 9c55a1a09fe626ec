// The words of a line, and what is read from one.
ghost use Rattle.std.specs.Prelude.{◌≡◌, IfOk, vec_items};
ghost use Rattle.std.specs.Option.{option_map};
ghost use Rattle.std.specs.Str.{bytes_eq};
ghost use Rattle.trunk.specs.Views.{side_says};
ghost use Rattle.rehearsal.specs.Reading.{before, behind, texts, words_in, number_in, number_up_to, role_in, peer_in, side_in, book_in, want_in, digit_in, octet_in, octets_in};

use endpoint::{Peer, Role};
use std::alloc::{AllocError, Global};
use std::str;
use trunk::Side;

// Which arrival book an end has.
#[derive(Clone, Copy)]
pub enum Book {
    Mask,
    List,
}

// What stands before the first such sign, or all, and what behind it, or nothing.
pub(crate) fn cut(text: &[u8], sign: u8) -> (&[u8], &[u8])
    ensures front { result.0.now ≡ before sign text.now }
    ensures back { result.1.now ≡ behind sign text.now }
{
    match text.iter().position(|octet| *octet == sign) {
        Some(at) => (&text[..at], &text[at + 1..]),
        None => (text, &[]),
    }
}

// The words of a line: what spaces part, before the comment.
pub(crate) fn words_of(alloc: Global, line: &[u8]) -> Result<Vec<&[u8]>, AllocError>
    ensures { IfOk result (λ words. texts words.items ≡ words_in line.now) }
{
    let (text, _) = cut(line, b'#');
    text.split(|octet| *octet == b' ')
        .filter(|word| !word.is_empty())
        .collect(alloc)
}

// One or more digits, that stand for at most the largest u64.
pub(crate) fn read_number(word: &[u8]) -> Option<u64>
    ensures { result ≡ number_in word.now }
{
    if !word.iter().all(|octet| octet.is_ascii_digit()) {
        return None;
    }
    str::from_utf8(word).ok()?.parse().ok()
}

pub(crate) fn is(word: &[u8], name: &str) -> bool
    ensures { result ≡ bytes_eq word.now name.now }
{
    word == name.as_bytes()
}

pub(crate) fn read_role(word: &[u8]) -> Option<Role>
    ensures { result ≡ role_in word.now }
{
    if is(word, "master") {
        Some(Role::Master)
    } else if is(word, "slave") {
        Some(Role::Slave)
    } else {
        None
    }
}

fn read_octet(word: &[u8]) -> Option<u8>
    ensures { result ≡ number_up_to 255 word.now }
{
    u8::try_from(read_number(word)?).ok()
}

// `A.B.C.D:PORT`. A sign that is missing leaves nothing behind it, which is no number.
pub(crate) fn read_peer(word: &[u8]) -> Option<Peer>
    ensures { result ≡ peer_in word.now }
{
    let (a, rest) = cut(word, b'.');
    let (b, rest) = cut(rest, b'.');
    let (c, rest) = cut(rest, b'.');
    let (d, port) = cut(rest, b':');
    Some(Peer {
        address: [
            read_octet(a)?,
            read_octet(b)?,
            read_octet(c)?,
            read_octet(d)?,
        ],
        port: u16::try_from(read_number(port)?).ok()?,
    })
}

pub(crate) fn read_side(word: &[u8]) -> Option<Side>
    ensures { option_map side_says result ≡ side_in word.now }
{
    if is(word, "left") {
        Some(Side::Left)
    } else if is(word, "right") {
        Some(Side::Right)
    } else {
        None
    }
}

pub(crate) fn read_book(word: &[u8]) -> Option<Book>
    ensures { result ≡ book_in word.now }
{
    if is(word, "mask") {
        Some(Book::Mask)
    } else if is(word, "list") {
        Some(Book::List)
    } else {
        None
    }
}

// Whether an Ack is wanted.
pub(crate) fn read_want(word: &[u8]) -> Option<bool>
    ensures { result ≡ want_in word.now }
{
    if is(word, "ack") {
        Some(true)
    } else if is(word, "plain") {
        Some(false)
    } else {
        None
    }
}

// What a hexadecimal digit stands for, small or large.
fn read_digit(sign: u8) -> Option<u8>
    ensures { result ≡ digit_in sign }
{
    match sign {
        b'0'..=b'9' => Some(sign - b'0'),
        b'a'..=b'f' => Some(sign - b'a' + 10),
        b'A'..=b'F' => Some(sign - b'A' + 10),
        _ => None,
    }
}

fn read_pair(high: u8, low: u8) -> Option<u8>
    ensures { result ≡ octet_in high low }
{
    Some(read_digit(high)? * 16 + read_digit(low)?)
}

// Octets as pairs of digits, or a dash for none.
pub(crate) fn read_octets(alloc: Global, word: &[u8]) -> Result<Option<Vec<u8>>, AllocError>
    ensures { IfOk result (λ found. option_map vec_items found ≡ octets_in word.now) }
{
    let mut octets = Vec::new(alloc);
    if is(word, "-") {
        return Ok(Some(octets));
    }
    let mut rest = word;
    while let &[high, low, ref after @ ..] = rest {
        let Some(octet) = read_pair(high, low) else {
            return Ok(None);
        };
        octets.push(octet)?;
        rest = after;
    }
    if rest.is_empty() {
        Ok(Some(octets))
    } else {
        Ok(None)
    }
}
