// One shelf: the bytes that keep an automaton.
ghost use Rattle.std.specs.Prelude.{◌≡◌, ◌<◌, ◌≤◌, length};
ghost use Rattle.trees.specs.Automata.{Complete};
ghost use Rattle.trees.specs.Rounds.{step};
ghost use Rattle.trees.specs.Trees.{letters};
ghost use Rattle.bench.specs.Combining.{combine, Inside};
ghost use Rattle.bench.specs.Shelves.{automaton, Fresh};

use crate::children::Children;
use atoms::table::AtomTable;

// How many states a shelf has place for.
pub const STATES: usize = 32;

// How many atoms a shelf has place for.
pub const ATOMS: usize = 16;

// Where the flags of the states begin.
const FLAGS: usize = 1;

// Where the states of nodes without a child begin.
pub const NONE: usize = FLAGS + STATES;

// Where the states of nodes with one child begin.
pub const SINGLE: usize = NONE + ATOMS;

// Where the states of nodes with two children begin.
pub const DOUBLE: usize = SINGLE + STATES * ATOMS;

// How many bytes a shelf has.
pub const SHELF: usize = DOUBLE + STATES * STATES * ATOMS;

// A shelf that is read, and the atoms that it goes by.
#[derive(Clone, Copy)]
pub struct Shelf<'a> {
    pub table: &'a AtomTable,
    pub bytes: &'a [u8],
    ghost long: { length bytes.now ≡ 16945 },
    ghost few: { (automaton bytes.now).size ≤ 32 },
    ghost complete: { Complete (letters table.now.count) (automaton bytes.now) },
}

impl Shelf<'_> {
    // How many states there are.
    pub fn states(&self) -> u8
        ensures { result ≡ (automaton self.now.bytes.now).size }
    {
        self.bytes[0]
    }

    // Whether the state accepts.
    pub fn accepts(&self, state: u8) -> bool
        requires { state < (automaton self.now.bytes.now).size }
        ensures { result ≡ (automaton self.now.bytes.now).accepts state }
    {
        self.bytes[FLAGS + usize::from(state)] == 1
    }

    // The state of a node with these children and the atom.
    pub fn next(&self, children: Children, atom: usize) -> u8
        requires inside { Inside (automaton self.now.bytes.now).size children }
        requires within { atom < self.now.table.now.count }
        ensures { result ≡ step (automaton self.now.bytes.now) (combine children atom) }
    {
        self.bytes[children.place(atom)]
    }
}

// One state, which does not accept.
pub fn clear(shelf: &mut [u8])
    requires { length shelf.old ≡ 16945 }
    ensures { Fresh shelf.new }
{
    shelf.fill(0);
    shelf[0] = 1;
}
