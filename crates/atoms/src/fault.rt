// Why there is no table of atoms.
ghost use Rattle.std.specs.Prelude.{◌≡◌};
ghost use Rattle.atoms.specs.Tables.{number_of};

use std::error::Error;
use std::fmt;

// There are more than 16 atoms.
#[derive(Clone, Copy, Debug, PartialEq, Eq)]
pub struct TooManyAtoms;

impl TooManyAtoms {
    // The number of the refusal.
    pub fn number(self) -> u32
        ensures { result ≡ number_of self }
    {
        20
    }
}

impl fmt::Display for TooManyAtoms {
    ghost use Rattle.std.specs.Prelude.{Some, codes};

    ghost output = { λ _. Some (codes "more than 16 atoms") };

    fn fmt<W: fmt::Write>(&self, f: &mut fmt::Formatter<W>) -> fmt::Result {
        f.write_str("more than 16 atoms")
    }
}

impl Error for TooManyAtoms {}
