// An automaton with its states put into classes.
ghost use Rattle.minimize.specs.Partitions.{Partition};

use crate::automaton::TreeAutomaton;
use crate::test::Test;

// The class of each state, and the representative of each of the classes, which are the numbers below count.
// `count` stands beside `reps`, since `Partition` of the public contracts counts the 32 lent places.
#[derive(Drop)]
pub struct Partitioned<'a, M: TreeAutomaton> {
    pub machine: &'a M,
    pub classes: &'a [u16],
    pub reps: &'a [u16],
    pub count: usize,
    ghost partition: { Partition (M.TreeAutomaton.meaning machine.now) classes.now reps.now count },
}

impl<M: TreeAutomaton> Partitioned<'_, M> {
    ghost use Rattle.std.specs.Prelude.{◌≡◌, ◌<◌, Decides};
    ghost use Rattle.minimize.specs.Looks.{automaton, atom_count, rep_of, says, AnswersAlike};
    ghost use Rattle.minimize.specs.Tests.{Valid};

    // The representative of the class.
    pub fn representative(&self, class: u16) -> usize
        requires class { class < self.now.count }
        ensures { result ≡ rep_of self.now class }
    {
        usize::from(self.reps[usize::from(class)])
    }

    // What the test says of the state p, a truth value or a class in one number: answers are only compared.
    pub(crate) fn answer(&self, test: Test, p: usize) -> u16
        requires sound { M.TreeAutomaton.sound self.now.machine.now }
        requires state { p < (automaton self.now).size }
        requires valid { Valid (atom_count self.now) (automaton self.now) test }
        ensures { result ≡ says self.now test p }
    {
        let m = self.machine;
        m.fit();
        match test {
            Test::Accepts => u16::from(m.accepts(p)),
            Test::Single(a) => self.classes[m.single(p, a)],
            Test::Left(y, a) => self.class_beside(p, &m.row(p), y, a),
            Test::Right(y, a) => self.class_beside(y, &m.row(y), p, a),
        }
    }

    // Whether p and its representative answer the test alike.
    pub(crate) fn alike(&self, test: Test, p: usize) -> bool
        requires sound { M.TreeAutomaton.sound self.now.machine.now }
        requires state { p < (automaton self.now).size }
        requires valid { Valid (atom_count self.now) (automaton self.now) test }
        ensures { Decides result (AnswersAlike self.now test p) }
    {
        let r = self.representative(self.classes[p]);
        self.answer(test, p) == self.answer(test, r)
    }
}
