// Things numbered as they are found, by rounds.
#![tactic(auto)]

pub mod entry;
pub mod full;
pub mod numbering;
mod rounds;
pub mod search;
pub mod stepping;
mod trying;
