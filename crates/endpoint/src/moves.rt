// What time brings at a place.
ghost use Rattle.std.specs.Prelude.{◌≡◌, ◌<◌, ◌≤◌, ◌^◌, ◌++◌, length, take, drop};
ghost use Rattle.endpoint.specs.PlaceTicks.{Makes};
ghost use Rattle.endpoint.specs.Ticks.{is_master, watches, move_with};
ghost use Rattle.endpoint.specs.Timing.{standing_timers};
ghost use Rattle.endpoint.specs.Views.{neighbour_says};

use crate::answer::{Sent, Ticked};
use crate::calling::write_alive;
use crate::laws::LARGEST_DATAGRAM;
use crate::numbering::Numbering;
use crate::peer::Role;
use crate::place::{Neighbour, Outstanding};
use crate::refusal::Refusal;
use crate::timers::STANDING;

impl Role {
    fn is_master(self) -> bool
        ensures { result ≡ is_master self }
    {
        matches!(self, Role::Master)
    }
}

impl Neighbour {
    // Copies the outstanding message's octets. Their number is never past the array's end: `min` says so where no invariant needs to.
    fn copy_datagram(&self, output: &mut [u8]) -> usize
        requires { 512 ≤ length output.old }
        ensures size { result ≡ length (take self.now.size self.now.datagram) }
        ensures buffer { output.new ≡ take self.now.size self.now.datagram ++ drop (length (take self.now.size self.now.datagram)) output.old }
    {
        let size = self.size.min(LARGEST_DATAGRAM);
        output[..size].copy_from_slice(&self.datagram[..size]);
        size
    }

    // What a tick does where no message is due: it marks silent, keeps alive, or does nothing.
    fn watch(
        &mut self,
        time: u64,
        numbering: &mut Numbering,
        output: &mut [u8],
    ) -> Result<Ticked, Refusal>
        requires { 1024 ≤ length output.old }
        ensures { Makes time (watches standing_timers time (neighbour_says self.old)) (neighbour_says self.old) numbering.old.given numbering.old.next output.old result (neighbour_says self.new) numbering.new.given numbering.new.next output.new }
    {
        if !self.silent && time.saturating_sub(self.heard) >= STANDING.silence {
            self.silent = true;
            return Ok(Ticked::Silent);
        }
        let rest = time.saturating_sub(self.heard.max(self.last_kept_alive));
        if !self.role.is_master() || rest < STANDING.rest {
            return Ok(Ticked::Idle);
        }
        if !numbering.is_left() {
            return Err(Refusal::NumbersSpent);
        }
        self.last_kept_alive = time;
        let number = numbering.give();
        let size = write_alive(number, output);
        Ok(Ticked::KeptAlive(Sent { number, size }))
    }

    // Of what a tick can do, the first that applies.
    pub(crate) fn tick(
        &mut self,
        time: u64,
        numbering: &mut Numbering,
        output: &mut [u8],
    ) -> Result<Ticked, Refusal>
        requires early { time < 2 ^ 48 }
        requires room { 1024 ≤ length output.old }
        ensures { Makes time (move_with standing_timers time (neighbour_says self.old).outstanding (neighbour_says self.old)) (neighbour_says self.old) numbering.old.given numbering.old.next output.old result (neighbour_says self.new) numbering.new.given numbering.new.next output.new }
    {
        match &mut self.outstanding {
            Outstanding::Waiting {
                number,
                transmissions,
                due,
            } if *due <= time => {
                let number = *number;
                if *transmissions < STANDING.tries {
                    *transmissions += 1;
                    *due = time + STANDING.later;
                    let size = self.copy_datagram(output);
                    Ok(Ticked::Resent(Sent { number, size }))
                } else {
                    self.outstanding = Outstanding::Nothing;
                    Ok(Ticked::Unanswered(number))
                }
            }
            _ => self.watch(time, numbering, output),
        }
    }
}
