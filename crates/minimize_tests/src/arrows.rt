// Automata by a lent list.
ghost use Rattle.std.specs.Prelude.{◌≡◌, length};
ghost use Rattle.minimize.specs.Minimized.{Minimized};
ghost use Rattle.minimize_tests.specs.Examples.{arrows, Sound};

use minimize::automaton::TreeAutomaton;
use minimize::fault::TooManyClasses;
use minimize::refine::minimize;

// Each state leads to its entry, and state 0 accepts. An entry may lie past the last state: whoever asks has to know that none does.
#[derive(Drop)]
pub struct Arrows<'a> {
    pub next: &'a [usize],
}

impl TreeAutomaton for Arrows<'_> {
    type Row = ();

    ghost meaning = { λ s. arrows s.next.now };

    ghost letters = { λ s. 1 };

    ghost prepared = { λ s p row. Unit {0} };

    ghost sound = { λ s. Sound s.next.now };

    fn fit(&self) {}

    fn size(&self) -> usize {
        self.next.len()
    }

    fn atoms(&self) -> usize {
        1
    }

    fn accepts(&self, p: usize) -> bool {
        p == 0
    }

    fn none(&self, _a: usize) -> usize {
        0
    }

    fn single(&self, p: usize, _a: usize) -> usize {
        self.next[p]
    }

    fn row(&self, _p: usize) {}

    fn double(&self, _p: usize, _row: &(), _q: usize, _a: usize) -> usize {
        0
    }
}

// The classes of the states of one that is known to be sound.
pub fn classes_of(
    m: &Arrows<'_>,
    classes: &mut [u16],
    next: &mut [u16],
    reps: &mut [u16],
) -> Result<usize, TooManyClasses>
    requires sound { Sound m.now.next.now }
    requires classes_long { length classes.old ≡ length m.now.next.now }
    requires next_long { length next.old ≡ length m.now.next.now }
    requires reps_long { length reps.old ≡ 32 }
    ensures { Minimized 1 (arrows m.now.next.now) result classes.new reps.new }
{
    minimize(m, classes, next, reps)
}
