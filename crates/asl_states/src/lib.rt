#![tactic(auto)]

//! What all states are made of, the rules of a Choice state, and the states that hold no machines (Amazon States Language, "State
//! Types", "Choice State"), and how they are read.
mod choice;
mod comparison_kind;
mod equality;
mod holding;
mod kind;
mod map_readers;
mod rule_readers;
mod state;
mod state_readers;
mod test_equality;
mod test_readers;

pub use asl_errors as error_handling;
pub use asl_fields as definition_fields;
pub use asl_fields::paths as paths;
pub use choice::{Comparison, InnerTest, Relation, Rule, Rules, Test, Tests};
pub use kind::{StateKind, kind_named};
pub use map_readers::{Elements, check_config, name_of_two, read_concurrency, read_elements};
pub use rule_readers::read_rules;
pub use state::{Choice, Fail, Pass, Processing, Resource, Succeed, Task, Transition, Wait};
pub use state_readers::{
    Work, read_choice, read_fail, read_pass, read_succeed, read_task, read_wait, read_work,
};
