// A non-standard payload: an object identifier, and what its owner agreed on.
ghost use Rattle.std.specs.Prelude.{◌≡◌};
ghost use Rattle.datagram.specs.Results.{map_ok};
ghost use Rattle.datagram.specs.Structures.{non_standard_of};
ghost use Rattle.datagram.specs.Views.{non_standard_says};

use crate::fault::{Fault, Question};

#[derive(Clone, Copy)]
pub struct NonStandard<'d> {
    pub oid: &'d [u8],
    pub free: &'d [u8],
}

impl<'d> NonStandard<'d> {
    pub(crate) fn read(data: &'d [u8], offset: usize) -> Result<NonStandard<'d>, Fault>
        ensures { map_ok non_standard_says result ≡ non_standard_of «data».now offset }
    {
        let [l1, l0, rest @ ..] = data else {
            return Err(Question::HoldsFixedPart.fails_at(offset));
        };
        let length = u16::from_be_bytes([*l1, *l0]) as usize;
        let Some((oid, free)) = rest.split_at_checked(length) else {
            return Err(Question::CountsMeetEnd.fails_at(offset));
        };
        Ok(NonStandard { oid, free })
    }
}
