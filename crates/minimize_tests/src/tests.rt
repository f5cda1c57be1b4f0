// The classes of small automata.
ghost use Rattle.std.specs.Prelude.{◌≡◌};
ghost use Rattle.minimize.specs.Minimized.{Minimized};

use crate::arrows::{Arrows, classes_of};
use crate::chain::Chain;
use crate::tables::Tables;
use minimize::automaton::TreeAutomaton;
use minimize::fault::TooManyClasses;
use minimize::refine::minimize;
use std::alloc::AllocError;

// How many classes there are, the class of each of the N states, and the representatives.
fn minimized<M: TreeAutomaton, const N: usize>(
    m: &M,
) -> (Result<usize, TooManyClasses>, [u16; N], [u16; 32])
    requires sound { M.sound m.now }
    requires states { N ≡ (M.meaning m.now).size }
    ensures { Minimized (M.letters m.now) (M.meaning m.now) result.0 result.1 result.2 }
{
    let (mut classes, mut next, mut reps) = ([7; N], [7; N], [7; 32]);
    let count = minimize(m, &mut classes, &mut next, &mut reps);
    (count, classes, reps)
}

// Both states accept.
#[test]
fn states_that_all_accept_are_one_class(rt: HostRuntime) {
    let m = Tables {
        size: 2,
        atoms: 2,
        accepts: [true, true, false],
        single: &[[1, 0], [0, 1], [0, 0]],
        double: &[[[0; 2]; 3]; 3],
    };
    let (count, classes, reps) = minimized::<_, 2>(&m);
    assert_eq!(rt; count, Ok(1));
    assert_eq!(rt; classes, [0, 0]);
    assert_eq!(rt; reps[0], 0);
}

// States 0 and 2 lead to the same states, and do not accept.
#[test]
fn congruent_states_are_one_class(rt: HostRuntime) {
    let m = Tables {
        size: 3,
        atoms: 1,
        accepts: [false, true, false],
        single: &[[1, 0], [2, 0], [1, 0]],
        double: &[[[0; 2]; 3]; 3],
    };
    let (count, classes, reps) = minimized::<_, 3>(&m);
    assert_eq!(rt; count, Ok(2));
    assert_eq!(rt; classes, [0, 1, 0]);
    assert_eq!(rt; (reps[0], reps[1]), (0, 1));
}

// State 2 accepts, and only steps of two children lead to other states than 0.
fn steps_of_two(double: &[[[usize; 2]; 3]; 3]) -> Tables<'_>
    ensures size { result.size ≡ 3 }
    ensures steps { result.double.now ≡ double.now }
{
    Tables {
        size: 3,
        atoms: 2,
        accepts: [false, false, true],
        single: &[[0; 2]; 3],
        double,
    }
}

#[test]
fn the_right_child_alone_tells_apart(rt: HostRuntime) {
    let mut double = [[[0; 2]; 3]; 3];
    double[2][1][1] = 2;
    let (count, classes, reps) = minimized::<_, 3>(&steps_of_two(&double));
    assert_eq!(rt; count, Ok(3));
    assert_eq!(rt; classes, [0, 2, 1]);
    assert_eq!(rt; (reps[1], reps[2]), (2, 1));
}

#[test]
fn the_left_child_alone_tells_apart(rt: HostRuntime) {
    let mut double = [[[0; 2]; 3]; 3];
    double[1][2][1] = 2;
    let (count, classes, _) = minimized::<_, 3>(&steps_of_two(&double));
    assert_eq!(rt; count, Ok(3));
    assert_eq!(rt; classes, [0, 2, 1]);
}

#[test]
fn there_are_32_classes_at_most(rt: HostRuntime) {
    let (full, _, _) = minimized::<_, 32>(&Chain { size: 32 });
    assert_eq!(rt; full, Ok(32));
    let (more, _, _) = minimized::<_, 33>(&Chain { size: 33 });
    assert_eq!(rt; more, Err(TooManyClasses));
}

// State 2 leads to itself, and 1 to it.
#[test]
fn a_lent_list_that_is_known_to_be_sound(rt: HostRuntime) {
    let m = Arrows { next: &[1, 2, 2] };
    let (mut classes, mut next, mut reps) = ([7; 3], [7; 3], [7; 32]);
    let count = classes_of(&m, &mut classes, &mut next, &mut reps);
    assert_eq!(rt; count, Ok(2));
    assert_eq!(rt; classes, [0, 1, 1]);
    assert_eq!(rt; (reps[0], reps[1]), (0, 1));
}

#[test]
fn the_refusal_says_why(rt: HostRuntime) -> Result<(), AllocError> {
    let heap = rt.alloc();
    let text = format!(in heap; "{TooManyClasses}")?;
    assert_eq!(rt; &*text, "more than 32 classes");
    Ok(())
}
