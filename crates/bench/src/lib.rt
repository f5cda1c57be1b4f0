// A bench: shelves of schemas in memory that is lent.
#![tactic(auto)]

pub mod bench;
pub mod children;
mod evaluate;
mod lookup;
mod membership;
pub mod node;
mod read;
pub mod refusal;
mod shelf;
pub mod workspace;
