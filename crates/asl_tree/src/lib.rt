#![tactic(auto)]

//! The tree of a machine (Amazon States Language): its states, the machines inside them, and how they are found and compared.
mod equality;
mod laws;
mod level;
mod level_equality;
mod machine;
mod shared;
mod state;

pub use laws::equality_is_of_machines;
pub use level::{Level, LevelPath, LevelStep};
pub use shared::SharedMachine;
pub use state::{Branches, Machine, Map, Parallel, State, States};
