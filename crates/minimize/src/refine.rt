// Puts the states of an automaton into the fewest classes.
ghost use Rattle.std.specs.Prelude.{◌≡◌, length};
ghost use Rattle.minimize.specs.Minimized.{Minimized};

use crate::automaton::TreeAutomaton;
use crate::fault::TooManyClasses;
use crate::partitioned::Partitioned;
use crate::test::Test;

// There are this many classes at most.
const MOST: usize = 32;

// Writes the class of each state and the representative of each class, and answers how many classes there are. `next` is
// room to work in.
// Not a struct of the slices: each is lent on its own, and a struct's contract would say of each loan where it ends.
pub fn minimize<M: TreeAutomaton>(
    m: &M,
    classes: &mut [u16],
    next: &mut [u16],
    reps: &mut [u16],
) -> Result<usize, TooManyClasses>
    requires sound { M.TreeAutomaton.sound m.now }
    requires classes_long { length classes.old ≡ (M.TreeAutomaton.meaning m.now).size }
    requires next_long { length next.old ≡ (M.TreeAutomaton.meaning m.now).size }
    requires reps_long { length reps.old ≡ 32 }
    ensures { Minimized (M.TreeAutomaton.letters m.now) (M.TreeAutomaton.meaning m.now) result classes.new reps.new }
{
    m.fit();
    classes.fill(0);
    reps[0] = 0;
    let mut count = 1;
    // where the last split was found
    let (mut state, mut row) = (0, 0);
    loop {
        let whole = Partitioned {
            machine: m,
            classes,
            reps,
            count,
        };
        let Some(found) = whole.find_split(state, row) else {
            return Ok(count);
        };
        if count == MOST {
            return Err(TooManyClasses);
        }
        state = found.state;
        if let Test::Right(x, _) = found.test {
            row = x;
        }
        whole.part(found, next);
        classes.copy_from_slice(next);
        reps[count] = found.state as u16;
        count += 1;
    }
}
