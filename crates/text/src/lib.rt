// A text cut into tokens, and the numbers that words write.
#![tactic(auto)]

pub mod number;
pub mod token;
