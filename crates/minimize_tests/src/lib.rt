// Small automata, and the classes of their states.
#![tactic(auto)]

mod arrows;
mod chain;
mod tables;
#[cfg(test)]
mod tests;
