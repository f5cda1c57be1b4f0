// A chain of states.
ghost use Rattle.std.specs.Prelude.{◌≤◌};
ghost use Rattle.minimize_tests.specs.Examples.{chain};

use minimize::automaton::TreeAutomaton;

// Each state but the last leads to the next, and the last accepts: no two states are alike.
#[derive(Drop)]
pub struct Chain {
    pub size: usize,
    ghost some: { 1 ≤ size },
    ghost few: { size ≤ 1024 },
}

impl TreeAutomaton for Chain {
    type Row = ();

    ghost meaning = { λ s. chain s.size };

    ghost letters = { λ s. 1 };

    ghost prepared = { λ s p row. Unit {0} };

    ghost sound = { λ s. Unit {0} };

    fn fit(&self) {}

    fn size(&self) -> usize {
        self.size
    }

    fn atoms(&self) -> usize {
        1
    }

    fn accepts(&self, p: usize) -> bool {
        p == self.size - 1
    }

    fn none(&self, _a: usize) -> usize {
        0
    }

    fn single(&self, p: usize, _a: usize) -> usize {
        (p + 1).min(self.size - 1)
    }

    fn row(&self, _p: usize) {}

    fn double(&self, _p: usize, _row: &(), _q: usize, _a: usize) -> usize {
        0
    }
}
