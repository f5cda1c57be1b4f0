// From steps to the table of the normal form.
#![tactic(auto)]

pub mod class;
pub mod listed;
pub mod order;
