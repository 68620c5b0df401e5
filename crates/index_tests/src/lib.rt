#![tactic(auto)]

//! Tests of the lists and queues below the book: links and numbered lists against plain ones, how many records a plan looks at, and
//! slips that go from one to two.
#[cfg(test)]
mod links;
#[cfg(test)]
mod plans;
#[cfg(test)]
mod slips;
