// Laws over the definitions: each function's contract is the law, and it does nothing.
ghost use Rattle.trace_theory.specs.Traces.{Machine, IsReversible, HasNames, Square, Loop, LeastConsequences, OrdersUndo, LinearizationsAgree, HoldIsWhatIsLeft};
ghost use Rattle.trace_theory.specs.Counters.{CountersAreReversible, CountersHaveNames, PremiseIsNeeded};
ghost use Rattle.trace_theory.specs.Footprints.{IsReached, PlansAreReversible};

/// Neighbours that do not depend on each other swap.
pub fn neighbours_swap<W, N, F, S>()
    ensures { (m : Machine W N F S) (base : W) → IsReversible m base → Square m base }
{}

/// A step on which no later one depends directly can be undone from the present world, and taken again it stands last.
pub fn free_steps_undo<W, N, F, S>()
    ensures { (m : Machine W N F S) (base : W) → IsReversible m base → Loop m base }
{}

/// What one pass forward marks is the least set that holds a step and its consequences.
pub fn consequences_are_least<W, N, F, S>()
    ensures { (m : Machine W N F S) (base : W) → HasNames m base → LeastConsequences m base }
{}

/// Every backward order of undoings leaves the run of the rest, and one that holds a step holds its consequences, which have
/// such an order.
pub fn orders_undo<W, N, F, S>()
    ensures { (m : Machine W N F S) (base : W) → IsReversible m base → HasNames m base → OrdersUndo m base }
{}

/// Every linearization of a run gives the same world, facts and saved contents.
pub fn linearizations_agree<W, N, F, S>()
    ensures { (m : Machine W N F S) (base : W) → IsReversible m base → HasNames m base → LinearizationsAgree m base }
{}

/// What is left of held consequences shrinks by one with each undoing of a member, and by nothing else.
pub fn held_consequences_are_left<W, N, F, S>()
    ensures { (m : Machine W N F S) (base : W) → IsReversible m base → HasNames m base → HoldIsWhatIsLeft m base }
{}

/// What is reversible from a world, and has each name once, is so from each world that a run from there reaches.
pub fn reached_worlds_are_reversible<W, N, F, S>()
    ensures lawful { (m : Machine W N F S) (start base : W) → IsReached m start base → IsReversible m start → IsReversible m base }
    ensures names { (m : Machine W N F S) (start base : W) → IsReached m start base → HasNames m start → HasNames m base }
{}

/// A machine is reversible where its steps are plans, and independent neighbours write nothing that the other touches.
pub fn plans_are_reversible<W, N, F, S, C, V, P>()
    ensures { PlansAreReversible W N F S C V P }
{}

/// A machine of threads that fork and join over shared counters is reversible, and is so only in worlds that runs reach.
pub fn counters_are_reversible()
    ensures lawful { CountersAreReversible }
    ensures names { CountersHaveNames }
    ensures premise { PremiseIsNeeded }
{}
