// Parts one class in two.
ghost use Rattle.std.specs.Prelude.{◌≡◌, ◌<◌, length};
ghost use Rattle.minimize.specs.Looks.{automaton, atom_count, class_of, rep_of, says, SplitBy};
ghost use Rattle.minimize.specs.Partitions.{Moved, Parted};
ghost use Rattle.minimize.specs.Tests.{Valid};

use crate::automaton::TreeAutomaton;
use crate::partitioned::Partitioned;
use crate::test::{Found, Test};

impl<M: TreeAutomaton> Partitioned<'_, M> {
    // The class of p when the class of r is parted, where r answers the test with `kept`.
    fn moved(&self, test: Test, r: usize, kept: u16, p: usize) -> u16
        requires sound { M.TreeAutomaton.sound self.now.machine.now }
        requires valid { Valid (atom_count self.now) (automaton self.now) test }
        requires states { (r < (automaton self.now).size) × (p < (automaton self.now).size) }
        requires known { kept ≡ says self.now test r }
        ensures { Moved (automaton self.now) self.now.classes.now test r self.now.count p result }
    {
        if self.classes[p] == self.classes[r] && self.answer(test, p) != kept {
            self.count as u16
        } else {
            self.classes[p]
        }
    }

    // Writes the classes with the class of the found state parted by the found test.
    pub(crate) fn part(&self, found: Found, next: &mut [u16])
        requires sound { M.TreeAutomaton.sound self.now.machine.now }
        requires splits { SplitBy self.now found }
        requires long { length next.old ≡ (automaton self.now).size }
        ensures long { length next.new ≡ length next.old }
        ensures parted { Parted (automaton self.now) self.now.classes.now found.test (rep_of self.now (class_of self.now found.state)) self.now.count next.new }
    {
        let r = self.representative(self.classes[found.state]);
        let kept = self.answer(found.test, r);
        for (p, class) in next.iter_mut().enumerate() {
            *class = self.moved(found.test, r, kept, p);
        }
    }
}
