// What every label kind answers.
ghost use Rattle.std.specs.Prelude.{◌≡◌, Some};
ghost use Rattle.labels.specs.Meaning.{Lawful, IsLeast, IsLargest};
ghost use Rattle.labels.specs.Adding.{Book, Adds, fault_text, number_of};

use crate::set::GuardSet;
use std::error::Error;
use std::fmt;

// Why a value is not added.
#[derive(Clone, Copy, Debug, PartialEq, Eq)]
pub enum AddFault {
    // the guard's number is above 31
    Guard,
    // the value is not of the kind's form
    Value,
    // there is no place for one more value
    Full,
}

impl AddFault {
    // The number of the refusal. By cases, not by discriminants: a cast of the fault counts its cases from 0.
    pub fn number(self) -> u32
        ensures { result ≡ number_of self }
    {
        match self {
            AddFault::Guard => 10,
            AddFault::Value => 11,
            AddFault::Full => 12,
        }
    }
}

impl fmt::Display for AddFault {
    ghost output = { λ fault. Some (fault_text fault) };

    fn fmt<W: fmt::Write>(&self, f: &mut fmt::Formatter<W>) -> fmt::Result {
        match self {
            AddFault::Guard => f.write_str("the guard's number is above 31"),
            AddFault::Value => f.write_str("the value is not of the kind's form"),
            AddFault::Full => f.write_str("there is no place for one more value"),
        }
    }
}

impl Error for AddFault {}

// A set of labels with guards 0 to n - 1, each of which holds of some of the labels.
pub trait LabelKind {
    // What a guard is given by.
    type Value;

    ghost book: { Self → Book Self.Value };

    // Shows that the meaning is lawful; does nothing.
    // A method, not a law: a law is owed at every number, also at one that no field of a kind can hold.
    fn lawful(&self)
        ensures { Lawful (book self.now).meaning };

    // How many guards there are.
    fn count(&self) -> u32
        ensures { result ≡ (book self.now).meaning.guards };

    fn label(&self, x: u64) -> bool
        ensures { result ≡ (book self.now).meaning.label x };

    fn holds(&self, guard: u32, x: u64) -> bool
        ensures { result ≡ (book self.now).meaning.holds guard x };

    // The least label that every guard of `yes` holds of, and no guard of `no`.
    fn least(&self, yes: GuardSet, no: GuardSet) -> Option<u64>
        ensures { IsLeast (book self.now).meaning yes.0 no.0 result };

    // Joins the value's labels to the guard.
    fn add(&mut self, guard: u32, value: &Self::Value) -> Result<(), AddFault>
        ensures { Adds (book self.old) guard value.now result (book self.new) };
}

// A kind whose labels lie below 2^32.
pub trait NarrowKind: LabelKind {
    fn largest(&self) -> u32
        ensures { IsLargest (Self.LabelKind.book self.now).meaning result };
}
