// The two ends of a trunk, and how they are set up.
ghost use Rattle.std.specs.Prelude.{◌≡◌};
ghost use Rattle.trunk.specs.Acts.{other};
ghost use Rattle.trunk.specs.Views.{side_says};

use endpoint::Peer;

#[derive(Clone, Copy, PartialEq, Eq)]
pub enum Side {
    Left,
    Right,
}

impl Side {
    pub fn other(self) -> Side
        ensures { side_says result ≡ other (side_says self) }
    {
        match self {
            Side::Left => Side::Right,
            Side::Right => Side::Left,
        }
    }
}

// By which address and port the other knows an end, and the first number that it gives.
#[derive(Clone, Copy)]
pub struct End {
    pub peer: Peer,
    pub start: u32,
}

#[derive(Clone, Copy)]
pub struct Setting {
    pub left: End,
    pub right: End,
}
