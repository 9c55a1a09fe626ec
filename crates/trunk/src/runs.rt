// A list of calls, run on two new endpoints.
ghost use Rattle.std.specs.Prelude.{◌≡◌, map, vec_items};
ghost use Rattle.datagram.specs.Results.{map_ok};
ghost use Rattle.trunk.specs.Parties.{opened, TakesTurn, trunk_says};
ghost use Rattle.trunk.specs.Runs.{by_side, setting_says, Runs};
ghost use Rattle.trunk.specs.Views.{entry_says, turn_says};

use crate::call::Turn;
use crate::log::{Entry, Error};
use crate::party::Party;
use crate::setting::{Setting, Side};
use crate::{GAP, TRIES};
use arrivals::ArrivalBook;
use std::alloc::Global;

#[derive(Drop)]
struct Trunk<L, R> {
    left: Party<L>,
    right: Party<R>,
}

impl<L: ArrivalBook + Drop, R: ArrivalBook + Drop> Trunk<L, R> {
    fn open(setting: Setting) -> Result<Trunk<L, R>, Error>
        ensures { map_ok (trunk_says L.ArrivalBook.seen R.ArrivalBook.seen) result ≡ opened (setting_says L.ArrivalBook.depth R.ArrivalBook.depth setting) }
    {
        let Setting { left, right } = setting;
        let trunk = Trunk {
            left: Party::open(Side::Left, left.start, right.peer)?,
            right: Party::open(Side::Right, right.start, left.peer)?,
        };
        if left.peer == right.peer {
            return Err(Error::SamePeer);
        }
        Ok(trunk)
    }

    fn take(&mut self, alloc: Global, log: &[Entry], turn: &Turn) -> Result<Entry, Error>
        ensures { TakesTurn (by_side L.ArrivalBook.depth R.ArrivalBook.depth) (trunk_says L.ArrivalBook.seen R.ArrivalBook.seen self.old) (map entry_says log.now) (turn_says turn.now) (map_ok entry_says result) (trunk_says L.ArrivalBook.seen R.ArrivalBook.seen self.new) }
    {
        match turn.side {
            Side::Left => self.left.take(alloc, log, &turn.call),
            Side::Right => self.right.take(alloc, log, &turn.call),
        }
    }
}

// Whatever the line between the two does, and whatever comes from others: a log that comes of it keeps the law.
pub fn run<L: ArrivalBook + Drop, R: ArrivalBook + Drop>(
    alloc: Global,
    setting: Setting,
    turns: &[Turn],
) -> Result<Vec<Entry>, Error>
    ensures { Runs (setting_says L.ArrivalBook.depth R.ArrivalBook.depth setting) (map turn_says turns.now) (map_ok (λ log. map entry_says (vec_items log)) result) TRIES GAP }
{
    let mut trunk = Trunk::<L, R>::open(setting)?;
    let mut log = Vec::new(alloc);
    for turn in turns {
        let entry = trunk.take(alloc, &log, turn)?;
        log.push(entry)?;
    }
    Ok(log)
}
