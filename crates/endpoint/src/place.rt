// A place of an endpoint: vacant, or held by a neighbour.
ghost use Rattle.std.specs.Prelude.{◌≡◌, ◌≤◌, not, length, Some};
ghost use Rattle.endpoint.specs.Ends.{is_none, held, with_outstanding};
ghost use Rattle.endpoint.specs.Enrols.{newcomer};
ghost use Rattle.endpoint.specs.Views.{neighbour_says, holds};

use crate::laws::LARGEST_DATAGRAM;
use crate::peer::{Peer, Role};
use search::Keyed;

// A message for which an Ack is awaited, without its octets.
#[derive(Clone, Copy)]
pub(crate) enum Outstanding {
    Nothing,
    Waiting {
        number: u32,
        transmissions: u8,
        due: u64,
    },
}

// The outstanding message's datagram is the first `size` octets of `datagram`, which lies beside the enum so that a message is kept and
// forgotten in place.
#[derive(Clone, Copy)]
pub(crate) struct Neighbour {
    pub peer: Peer,
    pub role: Role,
    pub heard: u64,
    pub last_kept_alive: u64,
    pub silent: bool,
    pub outstanding: Outstanding,
    pub datagram: [u8; LARGEST_DATAGRAM],
    pub size: usize,
}

pub(crate) type Place = Option<Neighbour>;

impl Keyed<Peer> for Neighbour {
    ghost under = { holds };

    fn is_under(&self, key: &Peer) -> bool {
        self.peer == *key
    }
}

impl Neighbour {
    pub(crate) fn new(peer: Peer, role: Role, time: u64) -> Neighbour
        ensures { neighbour_says result ≡ newcomer peer role time }
    {
        Neighbour {
            peer,
            role,
            heard: time,
            last_kept_alive: time,
            silent: false,
            outstanding: Outstanding::Nothing,
            datagram: [0; LARGEST_DATAGRAM],
            size: 0,
        }
    }

    pub(crate) fn is_waiting(&self) -> bool
        ensures { result ≡ not (is_none (neighbour_says self.now).outstanding) }
    {
        matches!(self.outstanding, Outstanding::Waiting { .. })
    }

    // Keeps a message that was sent for the first time.
    pub(crate) fn keep(&mut self, number: u32, due: u64, message: &[u8])
        requires { length message.now ≤ 512 }
        ensures { held (neighbour_says self.new) ≡ with_outstanding (Some (record { number = number; transmissions = 1; due = due; octets = message.now })) (held (neighbour_says self.old)) }
    {
        let size = message.len();
        self.datagram[..size].copy_from_slice(message);
        self.size = size;
        self.outstanding = Outstanding::Waiting {
            number,
            transmissions: 1,
            due,
        };
    }
}
