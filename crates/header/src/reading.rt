// How a main header is read: one value, with a field for each choice (docs/RULES.md, "Main header").
ghost use Rattle.std.specs.Prelude.{◌≡◌};
ghost use Rattle.header.specs.Reading.{reading_of};

use crate::edition::Edition;
use crate::numbering::Numbering;

#[derive(Clone, Copy)]
pub struct Reading {
    pub numbering: Numbering,
    pub edition: Edition,
}

// As C gives it: a number for each choice, 0 for what is meant where nothing is said.
#[repr(C)]
#[derive(Clone, Copy)]
pub struct ReadingNumbers {
    pub numbering: u32,
    pub edition: u32,
}

impl From<ReadingNumbers> for Reading {
    ghost from_gives = { λ numbers reading. reading ≡ reading_of numbers };

    fn from(numbers: ReadingNumbers) -> Reading {
        Reading {
            numbering: Numbering::from(numbers.numbering),
            edition: Edition::from(numbers.edition),
        }
    }
}
