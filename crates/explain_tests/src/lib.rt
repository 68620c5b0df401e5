#![tactic(auto)]

//! Tests of the details that explain finds: what each says is proved, that it is found is not.
#[cfg(test)]
mod asked;
#[cfg(test)]
mod branches;
#[cfg(test)]
mod turns;
