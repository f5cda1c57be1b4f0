// Why a text is refused.
ghost use Rattle.std.specs.Prelude.{◌≡◌, Some};
ghost use Rattle.blocks.specs.Printing.{refusal_text};
ghost use Rattle.blocks.specs.Refusals.{number_of, place_of};
ghost use Rattle.blocks.specs.declared.refusal.Refusal.TheVariants.{TooManyAtoms as TooMany};
ghost use Rattle.blocks.specs.declared.refusal.Stop.TheVariants.{Refused, Memory};

use atoms::fault::TooManyAtoms;
use std::alloc::AllocError;
use std::fmt;

// Each case with the number of the text line, where it has one.
#[derive(Clone, Copy, Debug, PartialEq, Eq)]
pub enum Refusal {
    // more than 32,768 bytes
    TooLong,
    // a wrong byte, spacing, word count, block or names line
    Line(u32),
    // a word that is not of its column's form
    Word(u32),
    // a guard above 31
    Guard(u32),
    // a value out of form
    Value(u32),
    // one value too many
    Full(u32),
    // more than 16 atoms
    TooManyAtoms,
}

impl Refusal {
    // The number that is printed. By cases: cases that name a line have no discriminant.
    pub fn number(self) -> u32
        ensures { result ≡ number_of self }
    {
        match self {
            Refusal::TooLong => 3,
            Refusal::Line(_) => 1,
            Refusal::Word(_) => 2,
            Refusal::Guard(_) => 10,
            Refusal::Value(_) => 11,
            Refusal::Full(_) => 12,
            Refusal::TooManyAtoms => 20,
        }
    }

    // The text line; 0 where there is none, since a refusal is printed as two numbers.
    pub fn place(self) -> u32
        ensures { result ≡ place_of self }
    {
        match self {
            Refusal::Line(line) | Refusal::Word(line) => line,
            Refusal::Guard(line) | Refusal::Value(line) | Refusal::Full(line) => line,
            Refusal::TooLong | Refusal::TooManyAtoms => 0,
        }
    }
}

// What is printed in the place of a table, and no `Error`: nothing hands it on as one.
impl fmt::Display for Refusal {
    ghost output = { λ refusal. Some (refusal_text refusal) };

    fn fmt<W: fmt::Write>(&self, f: &mut fmt::Formatter<W>) -> fmt::Result {
        let number = self.number();
        let place = self.place();
        write!(f, "refused place\n{number} {place}\n")
    }
}

// Why a reading stopped.
#[derive(Clone, Copy, Debug, PartialEq, Eq)]
pub enum Stop {
    Refused(Refusal),
    Memory(AllocError),
}

impl From<Refusal> for Stop {
    ghost from_gives = { λ refusal r. r ≡ Refused refusal };

    fn from(refusal: Refusal) -> Stop {
        Stop::Refused(refusal)
    }
}

impl From<TooManyAtoms> for Stop {
    ghost from_gives = { λ _ r. r ≡ Refused TooMany };

    fn from(_fault: TooManyAtoms) -> Stop {
        Stop::Refused(Refusal::TooManyAtoms)
    }
}

impl From<AllocError> for Stop {
    ghost from_gives = { λ error r. r ≡ Memory error };

    fn from(error: AllocError) -> Stop {
        Stop::Memory(error)
    }
}
