// The blocks of a text: the guard book that it gives, and what is printed of it.
#![tactic(auto)]

pub mod answer;
mod cuts;
mod guards;
pub mod kinds;
mod print;
pub mod refusal;
pub mod rows;
