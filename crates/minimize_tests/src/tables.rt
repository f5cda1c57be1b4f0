// Automata given by tables.
ghost use Rattle.std.specs.Prelude.{◌≡◌, ◌≤◌, [], slice_index_or};
ghost use Rattle.minimize_tests.specs.Examples.{by_tables};

use minimize::automaton::TreeAutomaton;

// At most three states and two atoms. An entry past the last state stands for it.
#[derive(Drop)]
pub struct Tables<'a> {
    pub size: usize,
    pub atoms: usize,
    pub accepts: [bool; 3],
    // by state and atom
    pub single: &'a [[usize; 2]; 3],
    // by left state, right state and atom
    pub double: &'a [[[usize; 2]; 3]; 3],
    ghost some: { 1 ≤ size },
    ghost few: { size ≤ 3 },
    ghost atoms_few: { atoms ≤ 2 },
}

impl<'a> TreeAutomaton for Tables<'a> {
    // the part of `double` for the left state
    type Row = &'a [[usize; 2]; 3];

    ghost meaning = { λ s. by_tables s.size s.accepts s.single.now s.double.now };

    ghost letters = { λ s. s.atoms };

    ghost prepared = { λ s p row. row.now ≡ slice_index_or s.double.now p [] };

    ghost sound = { λ s. Unit {0} };

    fn fit(&self) {}

    fn size(&self) -> usize {
        self.size
    }

    fn atoms(&self) -> usize {
        self.atoms
    }

    fn accepts(&self, p: usize) -> bool {
        self.accepts[p]
    }

    fn none(&self, _a: usize) -> usize {
        0
    }

    fn single(&self, p: usize, a: usize) -> usize {
        self.single[p][a].min(self.size - 1)
    }

    fn row(&self, p: usize) -> &'a [[usize; 2]; 3] {
        &self.double[p]
    }

    fn double(&self, _p: usize, row: &&'a [[usize; 2]; 3], q: usize, a: usize) -> usize {
        row[q][a].min(self.size - 1)
    }
}
