// Tests that can tell two states apart.

// A test of a state.
#[derive(Clone, Copy, Debug, PartialEq, Eq)]
pub enum Test {
    // whether it accepts
    Accepts,
    // the class of a node that has it as its one child; the atom
    Single(usize),
    // the class of a node that has it on the left; the state on the right, and the atom
    Left(usize, usize),
    // the class of a node that has it on the right; the state on the left, and the atom
    Right(usize, usize),
}

// A state, and a test that it answers otherwise than the representative of its class.
#[derive(Clone, Copy, Debug, PartialEq, Eq)]
pub struct Found {
    pub state: usize,
    pub test: Test,
}
