// One atom of a guard book.
use labels::set::GuardSet;

// A set of guards that are, for some label, exactly those that hold of it; and the least such label.
#[derive(Clone, Copy, Debug, Default, PartialEq, Eq)]
pub struct Atom {
    pub label: u64,
    pub guards: GuardSet,
}
