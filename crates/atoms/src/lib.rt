// The atoms of a guard book.
#![tactic(auto)]

pub mod atom;
pub mod fault;
pub mod find;
mod split;
pub mod table;
