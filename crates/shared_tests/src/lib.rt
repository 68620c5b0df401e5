#![tactic(auto)]

//! Tests of a book that callers share, by calls through several passes.
#[cfg(test)]
mod beside;
#[cfg(test)]
mod calls;
#[cfg(test)]
mod hot;
#[cfg(test)]
mod operator;
#[cfg(test)]
mod passes;
#[cfg(test)]
mod rounds;
#[cfg(test)]
mod shares;
#[cfg(test)]
mod taking_back;
#[cfg(test)]
mod turns;
#[cfg(test)]
mod undoings;
#[cfg(test)]
mod workers;
