// Why there are no classes.
use std::error::Error;
use std::fmt;

// There are more than 32 classes.
#[derive(Clone, Copy, Debug, PartialEq, Eq)]
pub struct TooManyClasses;

impl fmt::Display for TooManyClasses {
    ghost use Rattle.std.specs.Prelude.{Some, codes};

    ghost output = { λ _. Some (codes "more than 32 classes") };

    fn fmt<W: fmt::Write>(&self, f: &mut fmt::Formatter<W>) -> fmt::Result {
        f.write_str("more than 32 classes")
    }
}

impl Error for TooManyClasses {}
