#![tactic(auto)]

//! Why a turn of a thread fails: whether it does and with which error, as the turn's own functions decide, and what is wrong.
mod answers;
mod calls;
mod catchers;
mod choices;
mod definition;
mod details;
mod elements;
mod ends;
mod flaws;
mod keys;
mod results;
mod tasks;
mod templates;
mod turns;
mod why;

pub use details::{
    Absent, Case, FailedCondition, Flaw, Malformed, NoKey, NoList, NoPlace, NoRule, OtherAttribute,
    OtherTable, TooDeep, TooMany,
};
pub use ends::ready_turn;
pub use turns::{explain_branch, explain_join, explain_turn};
pub use why::{Detail, Why};
