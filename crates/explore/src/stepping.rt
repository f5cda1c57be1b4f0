// What leads from things to things.
ghost use Rattle.std.specs.Prelude.{◌≡◌, ◌<◌, true};
ghost use Rattle.explore.specs.Steps.{Steps, Fit};

use crate::entry::Entry;

// Steps from the things of a node's children, with its label, to the thing of the node; and which things accept. A method says what
// it asks of a thing or a label: a type for them would have to name the steps that they belong to. The automata that `minimize` takes
// answer the same over numbers; `normal` makes the one of the other.
pub trait Stepping<E: Entry> {
    // What is prepared for one left child, so that it is worked out once for all right children and labels.
    type Row: Drop;

    ghost steps: { Self → Steps E };

    // the row was worked out for the thing
    ghost prepared: { Self → E → Self.Row → Type 0 };

    // what has to hold for the answers to be those of the steps: whoever passes steps knows it of these, since a type may have others
    ghost sound: { Self → Type 0 };

    // Shows that the steps stay among the things that may be asked about; does nothing.
    // A method, not a law: a law is owed at every number, also at one that no field can hold.
    fn fit(&self)
        requires sound { sound self.now }
        ensures { Fit (steps self.now) };

    fn accepts(&self, e: &E) -> bool
        requires sound { sound self.now }
        requires fine { (steps self.now).fine e.now ≡ true }
        ensures { result ≡ (steps self.now).accepts e.now };

    // How many labels there are.
    fn atoms(&self) -> usize
        requires sound { sound self.now }
        ensures { result ≡ (steps self.now).atoms };

    fn none(&self, a: usize) -> E
        requires sound { sound self.now }
        requires label { a < (steps self.now).atoms }
        ensures { result ≡ (steps self.now).none a };

    fn single(&self, p: &E, a: usize) -> E
        requires sound { sound self.now }
        requires fine { (steps self.now).fine p.now ≡ true }
        requires label { a < (steps self.now).atoms }
        ensures { result ≡ (steps self.now).single p.now a };

    // The row of the left child.
    fn row(&self, p: &E) -> Self::Row
        requires sound { sound self.now }
        requires fine { (steps self.now).fine p.now ≡ true }
        ensures { prepared self.now p.now result };

    // The thing of a node with two children, with the row of the left one.
    fn double(&self, p: &E, row: &Self::Row, q: &E, a: usize) -> E
        requires sound { sound self.now }
        requires left { (steps self.now).fine p.now ≡ true }
        requires right { (steps self.now).fine q.now ≡ true }
        requires row { prepared self.now p.now row.now }
        requires label { a < (steps self.now).atoms }
        ensures { result ≡ (steps self.now).double p.now q.now a };
}
