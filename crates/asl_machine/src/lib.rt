#![tactic(auto)]

//! Definitions of state machines (Amazon States Language), read from JSON and checked once.
mod laws;
mod read;

pub use asl_fields::MachineFault;
pub use asl_states::error_handling::{
    Catcher, Catchers, ErrorHandling, ErrorNames, Retrier, Retriers,
};
pub use asl_states::{
    Choice, Comparison, Fail, InnerTest, Pass, Processing, Relation, Resource, Rule, Rules,
    Succeed, Task, Test, Tests, Transition, Wait,
};
pub use asl_tree as machine_tree;
pub use asl_tree::{
    Branches, Level, LevelPath, LevelStep, Machine, Map, Parallel, SharedMachine, State, States,
    equality_is_of_machines,
};
pub use laws::{
    definitions_are_one_machine, faulty_definitions_are_none, levels_are_well_formed,
    machines_are_well_formed,
};
pub use read::ReadMachine;
