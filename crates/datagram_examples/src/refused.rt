// Datagrams that fail a question, each with its number, layer and offset.
use datagram::{Datagram, Layer};

// What is refused, by number, layer and offset; nothing where the datagram is accepted.
fn refusal(octets: &[u8]) -> Option<(u8, Layer, usize)> {
    let fault = Datagram::read(octets).err()?;
    Some((fault.question.number(), fault.layer, fault.offset))
}

#[test]
fn more_than_the_maximum(rt: HostRuntime) {
    let octets = [0; 1025];
    assert_eq!(rt; refusal(&octets), Some((20, Layer::Datagram, 1024)));
    // Nothing else is asked: the version is wrong too.
    let octets = [0xFF; 2000];
    assert_eq!(rt; refusal(&octets), Some((20, Layer::Datagram, 1024)));
}

#[test]
fn less_than_a_header(rt: HostRuntime) {
    assert_eq!(rt; refusal(&[]), Some((21, Layer::Datagram, 0)));
    assert_eq!(rt; refusal(&[0xF0]), Some((21, Layer::Datagram, 1)));
    assert_eq!(rt; refusal(&[0, 0, 0, 0]), Some((21, Layer::Datagram, 4)));
}

#[test]
fn another_version(rt: HostRuntime) {
    assert_eq!(rt;
        refusal(&[0x10, 0, 0, 0, 0]),
        Some((22, Layer::Datagram, 0))
    );
    assert_eq!(rt;
        refusal(&[0xF1, 0, 0, 0, 0]),
        Some((22, Layer::Datagram, 0))
    );
}

#[test]
fn no_header_of_a_payload(rt: HostRuntime) {
    assert_eq!(rt; refusal(&[0, 0, 0, 0, 0]), Some((23, Layer::Payload, 5)));
    assert_eq!(rt;
        refusal(&[0, 0, 0, 0, 0, 2, 0, 0, 0]),
        Some((23, Layer::Payload, 5))
    );
    let second_missing = [0, 0, 0, 9, 1, 8, 0, 0, 0, 4, 2, 0, 0, 5];
    assert_eq!(rt; refusal(&second_missing), Some((23, Layer::Payload, 14)));
}

#[test]
fn data_that_is_not_there(rt: HostRuntime) {
    assert_eq!(rt;
        refusal(&[0, 0, 0, 0, 0, 2, 0, 0, 0, 1]),
        Some((24, Layer::Payload, 8))
    );
    let second_short = [0, 0, 0, 0, 1, 2, 0, 0, 0, 1, 7, 2, 0, 0, 0xFF, 0xFF];
    assert_eq!(rt; refusal(&second_short), Some((24, Layer::Payload, 14)));
}

#[test]
fn no_fixed_part(rt: HostRuntime) {
    assert_eq!(rt;
        refusal(&[0, 0, 0, 0, 0, 6, 0, 0, 0, 3, 0, 0, 0]),
        Some((25, Layer::Structure, 10))
    );
    assert_eq!(rt;
        refusal(&[0, 0, 0, 0, 0, 8, 0, 0, 0, 0]),
        Some((25, Layer::Structure, 10))
    );
    assert_eq!(rt;
        refusal(&[0, 0, 0, 0, 0, 10, 0, 0, 0, 0]),
        Some((25, Layer::Structure, 10))
    );
    assert_eq!(rt;
        refusal(&[0, 0, 0, 0, 0, 12, 0, 0, 0, 1, 0]),
        Some((25, Layer::Structure, 10))
    );
}

#[test]
fn a_cookie_that_is_longer_or_shorter(rt: HostRuntime) {
    assert_eq!(rt;
        refusal(&[0, 0, 0, 0, 0, 6, 0, 0, 0, 4, 0, 0, 0, 2]),
        Some((26, Layer::Structure, 10))
    );
    assert_eq!(rt;
        refusal(&[0, 0, 0, 0, 0, 6, 0, 0, 0, 5, 0, 0, 0, 1, 7]),
        Some((26, Layer::Structure, 10))
    );
}

#[test]
fn numbers_that_are_more_or_fewer(rt: HostRuntime) {
    assert_eq!(rt;
        refusal(&[0, 0, 0, 0, 0, 8, 0, 0, 0, 1, 2]),
        Some((26, Layer::Structure, 10))
    );
    assert_eq!(rt;
        refusal(&[0, 0, 0, 0, 0, 8, 0, 0, 0, 3, 2, 0, 0]),
        Some((26, Layer::Structure, 10))
    );
    assert_eq!(rt;
        refusal(&[0, 0, 0, 0, 0, 8, 0, 0, 0, 4, 0, 0, 0, 5]),
        Some((26, Layer::Structure, 10))
    );
}

#[test]
fn entries_that_do_not_meet_the_end(rt: HostRuntime) {
    // No entry, an entry whose data would pass the end, and one that ends before it.
    assert_eq!(rt;
        refusal(&[0, 0, 0, 0, 0, 10, 0, 0, 0, 1, 2]),
        Some((26, Layer::Structure, 10))
    );
    assert_eq!(rt;
        refusal(&[0, 0, 0, 0, 0, 10, 0, 0, 0, 7, 2, 0, 0, 5, 0, 0, 1]),
        Some((26, Layer::Structure, 10))
    );
    assert_eq!(rt;
        refusal(&[0, 0, 0, 0, 0, 10, 0, 0, 0, 8, 2, 0, 0, 5, 0, 0, 0, 9]),
        Some((26, Layer::Structure, 10))
    );
}

#[test]
fn an_oid_past_the_end(rt: HostRuntime) {
    assert_eq!(rt;
        refusal(&[0, 0, 0, 0, 0, 12, 0, 0, 0, 2, 0, 1]),
        Some((26, Layer::Structure, 10))
    );
    assert_eq!(rt; refusal(&[0, 0, 0, 0, 0, 12, 0, 0, 0, 2, 0, 0]), None);
}

#[test]
fn octets_over(rt: HostRuntime) {
    assert_eq!(rt;
        refusal(&[0, 0, 0, 0, 0, 2, 0, 0, 0, 0, 0]),
        Some((27, Layer::Datagram, 10))
    );
}

#[test]
fn an_ack_wanted_for_acks_alone(rt: HostRuntime) {
    assert_eq!(rt;
        refusal(&[1, 0, 0, 0, 0, 8, 0, 0, 0, 1, 0]),
        Some((28, Layer::Datagram, 0))
    );
    assert_eq!(rt;
        refusal(&[1, 0, 0, 0, 0, 10, 0, 0, 0, 1, 0]),
        Some((28, Layer::Datagram, 0))
    );
    // With an unsupported payload beside the Ack it is deserved.
    assert_eq!(rt;
        refusal(&[1, 0, 0, 0, 1, 8, 0, 0, 0, 1, 0, 254, 0, 0, 0, 0]),
        None
    );
}

#[test]
fn the_first_fault_is_the_answer(rt: HostRuntime) {
    // A broken Ack before a payload that is missing, with A set and octets over.
    let broken = [1, 0, 0, 0, 2, 8, 0, 0, 0, 1, 2, 2, 0, 0, 0, 0];
    assert_eq!(rt; refusal(&broken), Some((26, Layer::Structure, 10)));
}
