// Examples of pairs: what they take and refuse, the labels they find, and their atoms.
#![tactic(auto)]

#[cfg(test)]
mod adding;
#[cfg(test)]
mod books;
#[cfg(test)]
mod compare;
#[cfg(test)]
mod least;
#[cfg(test)]
mod up_to;
