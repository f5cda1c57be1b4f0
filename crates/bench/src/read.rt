// What a shelf's automaton is.
ghost use Rattle.std.specs.Prelude.{◌≡◌, ◌<◌, ◌≤◌, length, MatchOption};
ghost use Rattle.std.specs.Option.{SomeIff};
ghost use Rattle.trees.specs.Rounds.{step};
ghost use Rattle.bench.specs.Benches.{shelves_in, shelf_at, HasShelf, automaton_at};
ghost use Rattle.bench.specs.Combining.{combine, Inside};

use crate::bench::Bench;
use crate::children::Children;
use crate::shelf::Shelf;

impl Bench<'_> {
    // Shelf k, to be read by the atoms of the bench.
    pub(crate) fn read(&self, k: usize) -> Option<Shelf<'_>>
        ensures { MatchOption result (shelves_in (length self.now.bytes.now) ≤ k) (λ s. HasShelf self.now.bytes.now k × (s.bytes.now ≡ shelf_at self.now.bytes.now k) × (s.table.now ≡ self.now.table)) }
    {
        let bytes = self.shelf(k)?;
        let table = &self.table;
        Some(Shelf { table, bytes })
    }

    // How many states shelf k has.
    pub fn states(&self, k: usize) -> Option<u8>
        ensures { SomeIff result (HasShelf self.now.bytes.now k) (automaton_at self.now.bytes.now k).size }
    {
        self.read(k).map(|shelf| shelf.states())
    }

    // Whether the state of shelf k accepts.
    pub fn accepts(&self, k: usize, state: u8) -> Option<bool>
        ensures { SomeIff result (HasShelf self.now.bytes.now k × (state < (automaton_at self.now.bytes.now k).size)) ((automaton_at self.now.bytes.now k).accepts state) }
    {
        self.read(k)
            .filter(|shelf| state < shelf.states())
            .map(|shelf| shelf.accepts(state))
    }

    // The state that shelf k gives a node with these children and the atom.
    pub fn next(&self, k: usize, children: Children, atom: usize) -> Option<u8>
        ensures { SomeIff result (HasShelf self.now.bytes.now k × Inside (automaton_at self.now.bytes.now k).size children × (atom < self.now.table.count)) (step (automaton_at self.now.bytes.now k) (combine children atom)) }
    {
        self.read(k)
            .filter(|shelf| children.below(shelf.states()) && atom < shelf.table.count())
            .map(|shelf| shelf.next(children, atom))
    }
}
