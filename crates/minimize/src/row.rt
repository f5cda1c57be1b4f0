// The classes that one left child leads to.
ghost use Rattle.std.specs.Prelude.{◌≡◌, ◌<◌, MatchOption, ◌≢◌};
ghost use Rattle.minimize.specs.Looks.{automaton, atom_count};
ghost use Rattle.minimize.specs.Rows.{beside, RowOf, TableOf};
ghost use Rattle.minimize.specs.Tests.{at};

use crate::automaton::TreeAutomaton;
use crate::partitioned::Partitioned;

// `x` and its row stay two: `prepared` of the trait may hold data, so a ghost field of a struct of both cannot state it.
impl<M: TreeAutomaton> Partitioned<'_, M> {
    // The class that x on the left, q on the right and the atom a lead to.
    pub(crate) fn class_beside(&self, x: usize, row: &M::Row, q: usize, a: usize) -> u16
        requires sound { M.TreeAutomaton.sound self.now.machine.now }
        requires left { x < (automaton self.now).size }
        requires row { M.prepared self.now.machine.now x row.now }
        requires right { q < (automaton self.now).size }
        requires atom { a < atom_count self.now }
        ensures { result ≡ beside self.now x q a }
    {
        self.machine.fit();
        self.classes[self.machine.double(x, row, q, a)]
    }

    // The classes that x on the left and q on the right lead to, by atom.
    fn classes_beside(&self, x: usize, row: &M::Row, q: usize) -> [u16; 16]
        requires sound { M.TreeAutomaton.sound self.now.machine.now }
        requires left { x < (automaton self.now).size }
        requires row { M.prepared self.now.machine.now x row.now }
        requires right { q < (automaton self.now).size }
        ensures { RowOf self.now (atom_count self.now) x q result }
    {
        self.machine.fit();
        let mut classes = [0; 16];
        // by index: with `iter_mut().enumerate()` a proof learns nothing of the entries of a local array
        for a in 0..self.machine.atoms() {
            classes[a] = self.class_beside(x, row, q, a);
        }
        classes
    }

    // For each representative on the right of x, the classes that they lead to.
    pub(crate) fn beside_representatives(&self, x: usize, row: &M::Row) -> [[u16; 16]; 32]
        requires sound { M.TreeAutomaton.sound self.now.machine.now }
        requires left { x < (automaton self.now).size }
        requires row { M.prepared self.now.machine.now x row.now }
        ensures { TableOf self.now self.now.count x result }
    {
        let mut table = [[0; 16]; 32];
        // by index, as in `classes_beside`
        for (i, &q) in self.reps[..self.count].iter().enumerate() {
            table[i] = self.classes_beside(x, row, usize::from(q));
        }
        table
    }

    // The first atom with which x on the left and q on the right lead to another class than the row says.
    pub(crate) fn first_difference(
        &self,
        x: usize,
        row: &M::Row,
        q: usize,
        wanted: &[u16; 16],
    ) -> Option<usize>
        requires sound { M.TreeAutomaton.sound self.now.machine.now }
        requires left { x < (automaton self.now).size }
        requires row { M.prepared self.now.machine.now x row.now }
        requires right { q < (automaton self.now).size }
        ensures { MatchOption result (RowOf self.now (atom_count self.now) x q wanted.now) (λ a. (a < atom_count self.now) × (at wanted.now a ≢ beside self.now x q a)) }
    {
        self.machine.fit();
        // `find` with a closure takes a third longer over all states
        for (a, &class) in wanted[..self.machine.atoms()].iter().enumerate() {
            if self.class_beside(x, row, q, a) != class {
                return Some(a);
            }
        }
        None
    }
}
