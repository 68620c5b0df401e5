#![tactic(auto)]

//! Tests of a journal and of a session by the calls that no run of the program makes.
#[cfg(test)]
mod files;
#[cfg(test)]
mod journals;
#[cfg(test)]
mod serving;
#[cfg(test)]
mod streams;
#[cfg(test)]
mod tables;
