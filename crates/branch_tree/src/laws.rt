//! Laws over the calls of a tree: each function's contract is the law, and it does nothing.

ghost use Rattle.branch_tree.specs.Laws.{GivenBack, ForkTakenBack, RestIsExact, NamesByPath, BelowIsParked};

/// Taking branches out and giving them back changes nothing.
pub fn given_back()
    ensures { GivenBack }
{}

/// A fork, and then taking its branches out, gives them as they were and changes nothing.
pub fn fork_taken_back()
    ensures { ForkTakenBack }
{}

/// What a path goes on by.
pub fn paths_go_on()
    ensures { RestIsExact }
{}

/// Names under one thread are ordered by their paths under it.
pub fn names_by_path()
    ensures { NamesByPath }
{}

/// What stands under a thread stands there while it is parked over it.
pub fn below_is_parked()
    ensures { BelowIsParked }
{}
