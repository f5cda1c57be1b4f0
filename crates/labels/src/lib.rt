// Label kinds: which numbers are labels, and which guards hold of them.
#![tactic(auto)]

pub mod code_points;
pub mod events;
pub mod kind;
pub mod pattern;
pub mod range;
pub mod set;
mod table;
pub mod tags;
