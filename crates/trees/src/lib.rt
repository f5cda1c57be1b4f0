// The theory that the schema engine stands on. There is no code here but functions whose contracts are the theorems.
#![tactic(auto)]

pub mod theorems;
