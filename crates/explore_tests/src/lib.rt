// Things found by steps that their caller knows to be sound.
#![tactic(auto)]

mod item;
mod notes;
#[cfg(test)]
mod tests;
