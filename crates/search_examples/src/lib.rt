// The one search at a second kind of record: who is held under an address and a port.
#![tactic(auto)]

ghost use Rattle.std.specs.Prelude.{◌≡◌};
ghost use Rattle.search.specs.First.{first_under};
ghost use Rattle.search_examples.specs.Peers.{same_peer, held_under};

use search::{Keyed, find};

// The key: where datagrams of a neighbour come from. (A type of its own: these examples stand on the search alone.)
#[derive(Clone, Copy, PartialEq, Eq)]
pub struct Peer {
    pub address: [u8; 4],
    pub port: u16,
}

// The record: a neighbour, with the time at which it was last heard. A place of the list holds one, or nobody.
#[derive(Clone, Copy)]
pub struct Neighbour {
    pub peer: Peer,
    pub heard: u64,
}

impl Keyed<Peer> for Neighbour {
    ghost under = { λ n. same_peer n.peer };

    fn is_under(&self, key: &Peer) -> bool {
        self.peer == *key
    }
}

pub fn place_of(held: &[Option<Neighbour>], peer: &Peer) -> Option<usize>
    ensures { result ≡ first_under (λ x. held_under x peer.now) held.now }
{
    find(held, peer)
}

#[cfg(test)]
mod tests {
    use super::*;

    const HOME: [u8; 4] = [10, 0, 0, 7];

    const AWAY: [u8; 4] = [10, 0, 7, 0];

    fn peer(address: [u8; 4], port: u16) -> Peer {
        Peer { address, port }
    }

    fn neighbour(address: [u8; 4], port: u16, heard: u64) -> Option<Neighbour> {
        Some(Neighbour {
            peer: peer(address, port),
            heard,
        })
    }

    fn held() -> [Option<Neighbour>; 5] {
        [
            None,
            neighbour(AWAY, 1720, 9),
            neighbour(HOME, 1720, 8),
            neighbour(HOME, 1721, 7),
            neighbour(HOME, 1720, 6),
        ]
    }

    #[test]
    fn finds_the_first_of_two_under_one_key(rt: HostRuntime) {
        assert_eq!(rt; place_of(&held(), &peer(HOME, 1720)), Some(2));
    }

    #[test]
    fn tells_ports_and_addresses_apart(rt: HostRuntime) {
        assert_eq!(rt; place_of(&held(), &peer(HOME, 1721)), Some(3));
        assert_eq!(rt; place_of(&held(), &peer(AWAY, 1720)), Some(1));
        assert_eq!(rt; place_of(&held(), &peer(AWAY, 1721)), None);
    }

    #[test]
    fn finds_nobody_in_an_empty_list(rt: HostRuntime) {
        assert_eq!(rt; place_of(&[], &peer(HOME, 1720)), None);
        assert_eq!(rt; place_of(&[None; 3], &peer([0, 0, 0, 0], 0)), None);
    }
}
