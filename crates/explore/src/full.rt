// There is no place for one more. Not an `Error`: whoever explores says what was too much.
#[derive(Clone, Copy, Debug, PartialEq, Eq)]
pub struct Full;
