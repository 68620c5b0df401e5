#![tactic(auto)]

//! Records of steps in their order. A step is found by its name, and the first that depends directly on it by the classes in
//! which the steps are: not by a look at each of them.
mod buckets;
mod due;
mod found;
mod gathered;
mod held;
mod looks;
mod plans;
mod queue;
mod records;
mod walks;

pub use held::HeldSteps;
pub use looks::Looks;
pub use records::StepRecords;
