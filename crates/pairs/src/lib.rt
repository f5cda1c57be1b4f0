// The pair of two narrow kinds.
#![tactic(auto)]

pub mod pair;
pub mod value;
mod values;
