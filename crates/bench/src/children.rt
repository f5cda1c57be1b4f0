// The children of a node, by their states, which are bytes of a shelf; those of `explore` are any numbers.
ghost use Rattle.std.specs.Prelude.{◌≡◌, ◌<◌, Decides};
ghost use Rattle.bench.specs.Combining.{place_at, Inside};

use crate::shelf::{ATOMS, DOUBLE, NONE, SINGLE, STATES};

#[derive(Clone, Copy, Debug, PartialEq, Eq)]
pub enum Children {
    No,
    One(u8),
    // left and right
    Two(u8, u8),
}

impl Children {
    // Where a shelf has the state of a node with these children and the atom.
    pub(crate) fn place(self, atom: usize) -> usize
        requires { atom < 16 }
        ensures { result ≡ place_at self atom }
    {
        match self {
            Children::No => NONE + atom,
            Children::One(p) => SINGLE + usize::from(p) * ATOMS + atom,
            Children::Two(p, q) => DOUBLE
                + (usize::from(p) * STATES + usize::from(q)) * ATOMS
                + atom,
        }
    }

    // Every child's state is below n.
    pub(crate) fn below(self, n: u8) -> bool
        ensures { Decides result (Inside n self) }
    {
        match self {
            Children::No => true,
            Children::One(p) => p < n,
            Children::Two(p, q) => p < n && q < n,
        }
    }
}
