// A machine: its states by name, and where it starts.
ghost use Rattle.std.specs.Prelude.{◌≡◌, option_copied, option_map, [], IfOk, IfErr, OnOk, OnErr, IfSome, Some};
ghost use Rattle.std.specs.BTreeMap.{insert_entry};
ghost use Rattle.std.specs.Cmp.Lexicographic.{slice_cmp};
ghost use Rattle.std.specs.Ordering.{nat_cmp};
ghost use Rattle.asl_tree.specs.Complete.{state_of, IsWellFormed};
ghost use Rattle.asl_tree.specs.Find.{branch_of, machine_at, state_at};
ghost use Rattle.asl_states.specs.Refusal.{RefusesForFault};
ghost use Rattle.asl_tree.specs.Targets.{if_missing, missing_next, missing_catcher, missing_rule, missing_default, missing_target, first_missing, name_or_else, target_fault};
ghost use Rattle.asl_tree.specs.TreeView.{tree_of};

use crate::level::LevelPath;
use crate::state::{Machine, State, States};
use asl_states::definition_fields::MachineFault;
use asl_states::error_handling::Catchers;
use asl_states::{Rules, Transition};
use json_tree::Text;
use std::alloc::{AllocError, Global};
use std::collections::BTreeMap;

impl States {
    pub fn new(alloc: Global) -> States
        ensures { result ≡ [] }
    {
        States {
            inner: BTreeMap::new(alloc),
        }
    }

    /// Adds a state, or replaces the one of its name.
    pub fn insert(&mut self, name: Text, state: State) -> Result<(), AllocError>
        ensures ok { OnOk result (self.new ≡ insert_entry (slice_cmp nat_cmp) self.old name (tree_of state)) }
        ensures err { OnErr result (self.new ≡ self.old) }
    {
        drop(self.inner.insert(name, state)?);
        Ok(())
    }

    /// The state of this name, found in time logarithmic in the number of states.
    pub fn get(&self, name: &Text) -> Option<&State>
        ensures { option_copied result ≡ state_of name.now self.now }
    {
        self.inner.get(name)
    }

    /// The first name that is to be a state's, where the machine starts or where a state may go, and that is none's.
    fn missing<'a>(&'a self, start: &'a Text) -> Option<&'a Text>
        ensures { option_copied result ≡ name_or_else (if_missing self.now start.now) (first_missing self.now self.now) }
    {
        match if_missing(self, start) {
            Some(missing) => Some(missing),
            None => self.first_missing(),
        }
    }

    /// The first name that a state may go to and that is no state's.
    fn first_missing(&self) -> Option<&Text>
        ensures { option_copied result ≡ first_missing self.now self.now }
    {
        for (_name, state) in &self.inner {
            if let Some(missing) = missing_target(self, state) {
                return Some(missing);
            }
        }
        None
    }
}

impl Machine {
    /// The machine with these states that starts at `start`, where each name of a state is one of them, else NoTarget of
    /// a name that isn't.
    pub fn new(start: Text, states: States) -> Result<Machine, MachineFault>
        ensures ok { IfOk result (λ m. m ≡ record { start = start; states = states }) }
        ensures whole { OnOk result (target_fault start states ≡ None) }
        ensures fault { IfErr result (λ e. RefusesForFault e (target_fault start states ≡ Some e)) }
    {
        match states.missing(&start) {
            Some(missing) => Err(MachineFault::NoTarget(missing.copy()?)),
            None => Ok(Machine { start, states }),
        }
    }

    /// The state in which an execution starts.
    pub fn start(&self) -> &Text
        ensures start { result.now ≡ self.now.start }
        ensures complete { IsWellFormed self.now }
    {
        &self.start
    }

    /// The state of this name in this machine's own `States` object, found in time logarithmic in the number of states.
    pub fn state(&self, name: &Text) -> Option<&State>
        ensures { option_copied result ≡ state_of name.now self.now.states }
    {
        self.states.get(name)
    }

    /// The branch or the processor that the path leads to; this machine, where the path is outermost. Takes, for each step,
    /// time logarithmic in the number of states.
    pub fn machine_at(&self, path: &LevelPath) -> Option<&Machine>
        ensures { option_copied result ≡ machine_at path.now self.now }
    {
        let mut machine = self;
        for step in path.as_slice() {
            let Some(state) = machine.states.get(&step.state) else {
                return None;
            };
            let Some(branch) = branch_of(state, step.branch) else {
                return None;
            };
            machine = branch;
        }
        Some(machine)
    }

    /// The state of this name in the `States` object that the path leads to.
    pub fn state_at(&self, path: &LevelPath, name: &Text) -> Option<&State>
        ensures { option_copied result ≡ state_at path.now name.now self.now }
    {
        match self.machine_at(path) {
            Some(machine) => machine.states.get(name),
            None => None,
        }
    }
}

/// The machine that is a state's branch with this number.
fn branch_of(state: &State, number: u32) -> Option<&Machine>
    ensures { option_copied result ≡ branch_of number state.now }
{
    match state {
        State::Parallel(s) => s.branches.inner.get(number as usize),
        State::Map(s) => {
            if number == 0 {
                Some(&s.processor)
            } else {
                None
            }
        }
        _ => None,
    }
}

/// The name of a state that this one may go to and that isn't there.
fn missing_target<'a>(states: &States, state: &'a State) -> Option<&'a Text>
    ensures { option_copied result ≡ missing_target states.now state.now }
{
    match state {
        State::Pass(s) => missing_next(states, &s.transition),
        State::Wait(s) => missing_next(states, &s.transition),
        State::Task(s) => { missing_on_error(states, &s.transition, &s.errors.catchers) }
        State::Parallel(s) => { missing_on_error(states, &s.transition, &s.errors.catchers) }
        State::Map(s) => { missing_on_error(states, &s.transition, &s.errors.catchers) }
        State::Choice(s) => match missing_rule(states, &s.rules) {
            Some(missing) => Some(missing),
            None => missing_default(states, &s.default),
        },
        State::Succeed(_) | State::Fail(_) => None,
    }
}

/// The name, where no state has it.
fn if_missing<'a>(states: &States, name: &'a Text) -> Option<&'a Text>
    ensures { option_copied result ≡ if_missing states.now name.now }
{
    match states.get(name) {
        Some(_) => None,
        None => Some(name),
    }
}

fn missing_next<'a>(states: &States, transition: &'a Transition) -> Option<&'a Text>
    ensures { option_copied result ≡ missing_next states.now transition.now }
{
    match transition {
        Transition::Next(next) => if_missing(states, next),
        Transition::End => None,
    }
}

fn missing_on_error<'a>(
    states: &States,
    transition: &'a Transition,
    catchers: &'a Catchers,
) -> Option<&'a Text>
    ensures { option_copied result ≡ name_or_else (missing_next states.now transition.now) (missing_catcher states.now catchers.now) }
{
    match missing_next(states, transition) {
        Some(missing) => Some(missing),
        None => missing_catcher(states, catchers),
    }
}

fn missing_catcher<'a>(states: &States, catchers: &'a Catchers) -> Option<&'a Text>
    ensures { option_copied result ≡ missing_catcher states.now catchers.now }
{
    for catcher in catchers.as_slice() {
        if let Some(missing) = if_missing(states, &catcher.next) {
            return Some(missing);
        }
    }
    None
}

fn missing_rule<'a>(states: &States, rules: &'a Rules) -> Option<&'a Text>
    ensures { option_copied result ≡ missing_rule states.now rules.now }
{
    for rule in rules.as_slice() {
        if let Some(missing) = if_missing(states, &rule.next) {
            return Some(missing);
        }
    }
    None
}

fn missing_default<'a>(states: &States, default: &'a Option<Text>) -> Option<&'a Text>
    ensures { option_copied result ≡ missing_default states.now default.now }
{
    match default {
        Some(name) => if_missing(states, name),
        None => None,
    }
}
