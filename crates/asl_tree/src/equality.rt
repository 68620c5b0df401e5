// Equality of machines, and of the states that hold them.
ghost use Rattle.std.specs.Prelude.{◌≡◌};
ghost use Rattle.asl_tree.specs.Definition.{machine_tree, machine_trees, named_states};
ghost use Rattle.asl_tree.specs.Same.{same_machine, same_machines, same_state, same_states};
ghost use Rattle.asl_tree.specs.TreeView.{tree_of};

use crate::state::{Branches, Machine, Map, Parallel, State, States};

impl PartialEq for Machine {
    ghost use Rattle.std.specs.Cmp.{partial_equiv_from_equiv};
    ghost use Rattle.asl_states.specs.PathSame.{exact_equiv};
    ghost use Rattle.asl_tree.specs.Same.{same_definition, definition_exact};

    ghost eq = { same_definition };

    ghost laws = { partial_equiv_from_equiv (exact_equiv same_definition definition_exact) };

    fn eq(&self, other: &Machine) -> bool {
        same_machine(self, other)
    }
}

impl Eq for Machine {
    ghost use Rattle.asl_states.specs.PathSame.{exact_equiv};
    ghost use Rattle.asl_tree.specs.Same.{same_definition, definition_exact};

    ghost laws = { exact_equiv same_definition definition_exact };
}

#[cycle(same_machine)]
fn same_machine(a: &Machine, b: &Machine) -> bool
    ensures { result ≡ same_machine (machine_tree a.now) (machine_tree b.now) }
{
    a.start == b.start && same_states(&a.states, &b.states)
}

#[cycle(same_machine)]
fn same_states(a: &States, b: &States) -> bool
    ensures { result ≡ same_states (named_states a.now) (named_states b.now) }
{
    let mut rest = b.inner.iter();
    for (name, state) in &a.inner {
        let Some((other, to)) = rest.next() else {
            return false;
        };
        if name != other || !same_state(state, to) {
            return false;
        }
    }
    rest.next().is_none()
}

#[cycle(same_machine)]
fn same_state(a: &State, b: &State) -> bool
    ensures { result ≡ same_state (tree_of a.now) (tree_of b.now) }
{
    match (a, b) {
        (State::Pass(x), State::Pass(y)) => x == y,
        (State::Task(x), State::Task(y)) => x == y,
        (State::Choice(x), State::Choice(y)) => x == y,
        (State::Wait(x), State::Wait(y)) => x == y,
        (State::Succeed(x), State::Succeed(y)) => x == y,
        (State::Fail(x), State::Fail(y)) => x == y,
        (State::Parallel(x), State::Parallel(y)) => same_parallel(x, y),
        (State::Map(x), State::Map(y)) => same_map(x, y),
        _ => false,
    }
}

#[cycle(same_machine)]
fn same_parallel(a: &Parallel, b: &Parallel) -> bool
    ensures { result ≡ same_state (tree_of (State.Parallel a.now)) (tree_of (State.Parallel b.now)) }
{
    same_branches(&a.branches, &b.branches)
        && a.processing == b.processing
        && a.errors == b.errors
        && a.transition == b.transition
}

#[cycle(same_machine)]
fn same_branches(a: &Branches, b: &Branches) -> bool
    ensures { result ≡ same_machines (machine_trees a.now) (machine_trees b.now) }
{
    let mut rest = b.inner.iter();
    for x in &a.inner {
        let Some(y) = rest.next() else {
            return false;
        };
        if !same_machine(x, y) {
            return false;
        }
    }
    rest.next().is_none()
}

#[cycle(same_machine)]
fn same_map(a: &Map, b: &Map) -> bool
    ensures { result ≡ same_state (tree_of (State.Map a.now)) (tree_of (State.Map b.now)) }
{
    same_machine(&a.processor, &b.processor)
        && a.items_path == b.items_path
        && a.item_selector == b.item_selector
        && a.max_concurrency == b.max_concurrency
        && a.processing == b.processing
        && a.errors == b.errors
        && a.transition == b.transition
}
