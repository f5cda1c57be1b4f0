// Examples of guard books: what they take and refuse, the labels they find, and their atoms.
#![tactic(auto)]

#[cfg(test)]
mod code_points;
#[cfg(test)]
mod events;
#[cfg(test)]
mod sets;
#[cfg(test)]
mod tables;
#[cfg(test)]
mod tags;
