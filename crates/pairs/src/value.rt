// What a guard of a pair is given by.

// A guard of each part; it holds where both hold.
#[derive(Clone, Copy, Debug, PartialEq, Eq)]
pub struct PairValue {
    pub first: u32,
    pub second: u32,
}
