// Classes of states, and the steps between them.
ghost use Rattle.std.specs.Prelude.{◌≡◌, ◌==◌};
ghost use Rattle.std.proofs.Common.{rules};
ghost use Rattle.normal.specs.Classes.{class_steps, rep_of};

use explore::entry::Entry;
use explore::stepping::Stepping;
use minimize::automaton::TreeAutomaton;
use minimize::partitioned::Partitioned;

#[derive(Clone, Copy, Debug, PartialEq, Eq)]
pub struct Class(pub u16);

impl Entry for Class {
    ghost equal = { λ x y. (x.0 == y.0) };

    fn same(&self, other: &Class) -> bool {
        self == other
    }

    fn hint(&self) -> usize {
        usize::from(self.0)
    }

    ghost exact = { Prim.search rules };
}

// A representative and its row.
#[derive(Drop)]
pub struct ClassRow<R> {
    state: usize,
    row: R,
}

// A class steps as its representative does.
impl<M: TreeAutomaton> Stepping<Class> for Partitioned<'_, M> {
    type Row = ClassRow<M::Row>;

    ghost steps = { λ c. class_steps (M.TreeAutomaton.letters c.machine.now) (M.TreeAutomaton.meaning c.machine.now) c.classes.now c.reps.now c.count };

    ghost prepared = { λ c p row. (row.state ≡ rep_of c.reps.now p) × M.TreeAutomaton.prepared c.machine.now row.state row.row };

    ghost sound = { λ c. M.TreeAutomaton.sound c.machine.now };

    fn fit(&self) {
        self.machine.fit();
    }

    fn accepts(&self, e: &Class) -> bool {
        self.machine.accepts(self.representative(e.0))
    }

    fn atoms(&self) -> usize {
        self.machine.atoms()
    }

    fn none(&self, a: usize) -> Class {
        self.machine.fit();
        Class(self.classes[self.machine.none(a)])
    }

    fn single(&self, p: &Class, a: usize) -> Class {
        self.machine.fit();
        Class(self.classes[self.machine.single(self.representative(p.0), a)])
    }

    fn row(&self, p: &Class) -> ClassRow<M::Row> {
        let state = self.representative(p.0);
        let row = self.machine.row(state);
        ClassRow { state, row }
    }

    fn double(&self, _p: &Class, row: &ClassRow<M::Row>, q: &Class, a: usize) -> Class {
        self.machine.fit();
        let right = self.representative(q.0);
        Class(self.classes[self.machine.double(row.state, &row.row, right, a)])
    }
}
