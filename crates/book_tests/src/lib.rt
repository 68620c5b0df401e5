#![tactic(auto)]

//! Tests of the book and of what it stands on, by the calls that no line of a session makes.
#[cfg(test)]
mod acts;
#[cfg(test)]
mod commits;
#[cfg(test)]
mod holding;
#[cfg(test)]
mod laws;
#[cfg(test)]
mod orders;
#[cfg(test)]
mod plans;
#[cfg(test)]
mod settling;
#[cfg(test)]
mod trees;
