// What can be found against writing, and the answer that a refused call gives.
ghost use Rattle.std.specs.Prelude.{◌≡◌};
ghost use Rattle.writer.specs.Refusals.{number_of};

// Each case by what was found, in the order in which it is looked for. The number is the one that the outside sees.
#[derive(Clone, Copy, Debug, PartialEq, Eq)]
pub enum Found {
    NoRoom = 30,
    TypeNotWritten = 31,
    OutsideField = 32,
    NotClosable = 33,
}

impl Found {
    // A method and no `From`: the name says which number it is.
    pub fn number(self) -> u8
        ensures { result ≡ number_of self }
    {
        self as u8
    }
}

// The layer that refuses, shown as with every other refusal: the writer has but one.
#[derive(Clone, Copy, Debug, PartialEq, Eq)]
pub enum Layer {
    Writer,
}

// A refused call changed nothing. The offset is the writer's mark. A type of its own beside the reader's `Fault`: other names of
// parts and other values, and one generic type for both would say less at each.
#[derive(Clone, Copy, Debug, PartialEq, Eq)]
pub struct Refusal {
    pub found: Found,
    pub layer: Layer,
    pub offset: usize,
}
