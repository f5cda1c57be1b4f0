// The automata that are minimized.
ghost use Rattle.std.specs.Prelude.{◌≡◌, ℕ, ◌<◌};
ghost use Rattle.trees.specs.Automata.{Automaton};
ghost use Rattle.minimize.specs.Automata.{Fit};

// A complete deterministic tree automaton over at most 16 atoms, with 1 to 1024 states. States and atoms are plain numbers: a type
// for them would have to name the automaton that they are of, so each method says what it asks of them.
pub trait TreeAutomaton {
    // What the automaton works out once of a left child, for all right children and atoms.
    type Row: Drop;

    ghost meaning: { Self → Automaton };

    // how many atoms there are
    ghost letters: { Self → ℕ };

    // the row was worked out for the state
    ghost prepared: { Self → ℕ → Self.Row → Type 0 };

    // what has to hold for its answers to be those of its meaning: whoever passes an automaton knows it of this one, since a type may
    // have others
    ghost sound: { Self → Type 0 };

    // Shows that the automaton is complete and small enough; does nothing.
    // A method, not a law: a law is owed at every number, also at one that no field can hold.
    fn fit(&self)
        requires sound { sound self.now }
        ensures { Fit (letters self.now) (meaning self.now) };

    // How many states there are.
    fn size(&self) -> usize
        requires sound { sound self.now }
        ensures { result ≡ (meaning self.now).size };

    // How many atoms there are.
    fn atoms(&self) -> usize
        requires sound { sound self.now }
        ensures { result ≡ letters self.now };

    fn accepts(&self, p: usize) -> bool
        requires sound { sound self.now }
        requires state { p < (meaning self.now).size }
        ensures { result ≡ (meaning self.now).accepts p };

    // The state of a childless node.
    fn none(&self, a: usize) -> usize
        requires sound { sound self.now }
        requires atom { a < letters self.now }
        ensures { result ≡ (meaning self.now).none a };

    // The state of a node with one child.
    fn single(&self, p: usize, a: usize) -> usize
        requires sound { sound self.now }
        requires state { p < (meaning self.now).size }
        requires atom { a < letters self.now }
        ensures { result ≡ (meaning self.now).single p a };

    // The row of the left child's state.
    fn row(&self, p: usize) -> Self::Row
        requires sound { sound self.now }
        requires state { p < (meaning self.now).size }
        ensures { prepared self.now p result };

    // The state of a node with two children, with the row of the left one.
    fn double(&self, p: usize, row: &Self::Row, q: usize, a: usize) -> usize
        requires sound { sound self.now }
        requires left { p < (meaning self.now).size }
        requires right { q < (meaning self.now).size }
        requires atom { a < letters self.now }
        requires row { prepared self.now p row.now }
        ensures { result ≡ (meaning self.now).double p q a };
}
