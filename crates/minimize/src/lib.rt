// The states of a tree automaton put into classes: those of different classes are told apart, and nothing tells two states of
// one class apart.
#![tactic(auto)]

pub mod automaton;
pub mod fault;
pub mod partitioned;
pub mod refine;
mod row;
mod scan;
mod split;
mod test;
