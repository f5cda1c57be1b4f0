// The classes of an automaton's states in the order of rounds.
ghost use Rattle.std.specs.Prelude.{◌≡◌, ◌≤◌, length};
ghost use Rattle.normal.specs.Orders.{Orders};

use crate::class::Class;
use explore::search::explore;
use minimize::automaton::TreeAutomaton;
use minimize::fault::TooManyClasses;
use minimize::partitioned::Partitioned;
use minimize::refine::minimize;

// How many classes there are, and how many of them are in the order.
#[derive(Clone, Copy, Debug, PartialEq, Eq)]
pub struct Ordered {
    pub count: usize,
    // how many of the classes steps lead to: the places of the order that they take
    pub size: usize,
}

// Puts the states into classes, and the classes into the order in which rounds find them.
// Not a struct of the slices: each is lent on its own, and a struct's contract would say of each loan where it ends.
pub fn order_classes<M: TreeAutomaton>(
    m: &M,
    classes: &mut [u16],
    next: &mut [u16],
    reps: &mut [u16],
    order: &mut [Class],
    firsts: &mut [u16],
) -> Result<Ordered, TooManyClasses>
    requires sound { M.TreeAutomaton.sound m.now }
    requires classes_long { length classes.old ≡ (M.TreeAutomaton.meaning m.now).size }
    requires next_long { length next.old ≡ (M.TreeAutomaton.meaning m.now).size }
    requires reps_long { length reps.old ≡ 32 }
    requires order_long { length order.old ≡ 32 }
    requires firsts_long { 96 ≤ length firsts.old }
    ensures { Orders (M.TreeAutomaton.letters m.now) (M.TreeAutomaton.meaning m.now) result classes.new reps.new order.new firsts.new }
{
    m.fit();
    let count = minimize(m, classes, next, reps)?;
    let steps = Partitioned {
        machine: m,
        classes,
        reps,
        count,
    };
    // without hints, since at most 32 classes are searched plainly
    let size = explore(&steps, order, &mut [], firsts).unwrap();
    Ok(Ordered { count, size })
}
