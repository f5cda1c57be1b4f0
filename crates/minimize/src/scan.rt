// Looks for a state that answers a test otherwise than the representative of its class.
ghost use Rattle.std.specs.Prelude.{ℕ, ◌<◌, ◌≤◌, MatchOption, None, Some};
ghost use Rattle.minimize.specs.Looks.{automaton, AllStable, Everywhere, LeftAlike, Looked, Near, RightAlike, SingleAlike};

use crate::automaton::TreeAutomaton;
use crate::partitioned::Partitioned;
use crate::test::{Found, Test};

// What a look finds first at the states from `low` on, below `high`.
fn find_between<F: Fn(usize) -> Option<Found>>(low: usize, high: usize, look: F) -> Option<Found>
    requires { (p : ℕ) → low ≤ p → p < high → F.pre look p }
    ensures { MatchOption result ((p : ℕ) → low ≤ p → p < high → F.post look p None) (λ found. (p : ℕ) × (low ≤ p) × (p < high) × F.post look p (Some found)) }
{
    // with `find_map` the proof has to follow the calls of `look`; here one invariant does
    for p in low..high {
        if let Some(found) = look(p) {
            return Some(found);
        }
    }
    None
}

// What a look at the states below `size` finds first, from `start` on and round to it again.
fn find_round<F: Fn(usize) -> Option<Found>>(size: usize, start: usize, look: F) -> Option<Found>
    requires { (p : ℕ) → p < size → F.pre look p }
    ensures { MatchOption result ((p : ℕ) → p < size → F.post look p None) (λ found. (p : ℕ) × (p < size) × F.post look p (Some found)) }
{
    let middle = start.min(size);
    find_between(middle, size, &look).or_else(|| find_between(0, middle, &look))
}

// These use `for` and `if let`: a closure that calls a look has to repeat its clauses.
impl<M: TreeAutomaton> Partitioned<'_, M> {
    // Looks at p as the one child.
    fn single_of(&self, p: usize) -> Option<Found>
        requires sound { M.TreeAutomaton.sound self.now.machine.now }
        requires state { p < (automaton self.now).size }
        ensures { Looked self.now (SingleAlike self.now p) result }
    {
        for a in 0..self.machine.atoms() {
            let test = Test::Single(a);
            if !self.alike(test, p) {
                return Some(Found { state: p, test });
            }
        }
        None
    }

    // Looks at p on the left of representatives. Beside `right_of`, since the items differ: here representatives, there classes.
    fn left_of(&self, p: usize) -> Option<Found>
        requires sound { M.TreeAutomaton.sound self.now.machine.now }
        requires state { p < (automaton self.now).size }
        ensures { Looked self.now (LeftAlike self.now p) result }
    {
        let row = self.machine.row(p);
        let r = self.representative(self.classes[p]);
        let table = self.beside_representatives(r, &self.machine.row(r));
        // not by `zip`: the loop's invariant has no word for how far it has come
        for (i, &y) in self.reps[..self.count].iter().enumerate() {
            let y = usize::from(y);
            if let Some(a) = self.first_difference(p, &row, y, &table[i]) {
                let test = Test::Left(y, a);
                return Some(Found { state: p, test });
            }
        }
        None
    }

    // Looks at all states on the right of x.
    fn right_of(&self, x: usize) -> Option<Found>
        requires sound { M.TreeAutomaton.sound self.now.machine.now }
        requires state { x < (automaton self.now).size }
        ensures { Looked self.now (RightAlike self.now x) result }
    {
        let row = self.machine.row(x);
        let table = self.beside_representatives(x, &row);
        for (y, &class) in self.classes.iter().enumerate() {
            if let Some(a) = self.first_difference(x, &row, y, &table[usize::from(class)]) {
                let test = Test::Right(x, a);
                return Some(Found { state: y, test });
            }
        }
        None
    }

    // Looks at p: whether it accepts, as the one child, and on the left of representatives.
    fn near_of(&self, p: usize) -> Option<Found>
        requires sound { M.TreeAutomaton.sound self.now.machine.now }
        requires state { p < (automaton self.now).size }
        ensures { Looked self.now (Near self.now p) result }
    {
        let test = Test::Accepts;
        if !self.alike(test, p) {
            return Some(Found { state: p, test });
        }
        if let Some(found) = self.single_of(p) {
            return Some(found);
        }
        self.left_of(p)
    }
}

// `near` and `far` stay two: the closure of each states its own clause.
impl<M: TreeAutomaton> Partitioned<'_, M> {
    // Looks at every state near the representatives, from `start` on and round to it again.
    fn near(&self, start: usize) -> Option<Found>
        requires sound { M.TreeAutomaton.sound self.now.machine.now }
        ensures { Looked self.now (Everywhere self.now (Near self.now)) result }
    {
        find_round(
            self.machine.size(),
            start,
            |p|
                requires sound { M.TreeAutomaton.sound self.now.machine.now }
                requires state { p < (automaton self.now).size }
                ensures { Looked self.entry.now (Near self.entry.now p) result }
            { self.near_of(p) },
        )
    }

    // Looks at all states on the right of every state, from `start` on and round to it again.
    fn far(&self, start: usize) -> Option<Found>
        requires sound { M.TreeAutomaton.sound self.now.machine.now }
        ensures { Looked self.now (Everywhere self.now (RightAlike self.now)) result }
    {
        find_round(
            self.machine.size(),
            start,
            |x|
                requires sound { M.TreeAutomaton.sound self.now.machine.now }
                requires state { x < (automaton self.now).size }
                ensures { Looked self.entry.now (RightAlike self.entry.now x) result }
            { self.right_of(x) },
        )
    }

    // Looks for a split, and far from the representatives only where there is none near them. Where the looking starts does
    // not matter to whether there is one. By `if let`, as above.
    pub(crate) fn find_split(&self, state: usize, row: usize) -> Option<Found>
        requires sound { M.TreeAutomaton.sound self.now.machine.now }
        ensures { Looked self.now (AllStable self.now) result }
    {
        if let Some(found) = self.near(state) {
            return Some(found);
        }
        self.far(row)
    }
}
