//! Laws of logs: each function's contract is the law, and it does nothing.

ghost use Rattle.book_log.specs.Laws.{EqualityIsOfEntries, LegalLogsRun, AcceptedIsLegal, LegalLogsHaveRoom, StartsLeaveOthers, StepsLeaveOthers, UndoTakesBack, UndoTakesBackStart, AgainGivesBack, UndoAnswersAreExact, BackwardOrdersAreAccepted, AcceptedOrdersAreClosed, OrdersAgree, SettlingKeepsTheWorld, SettledStaysSettled, LeftIsAfter, HoldsStand, NothingIsLeft, HoldsAreShared, RollbackIsExact, RerunsAreLegal, RerunsAreExact, StepOrdersAgree};

/// What remains of a legal log can be run from the start, a legal log with an entry that is accepted is one, and its limits leave
/// room to undo each remaining step.
pub fn legal_logs_run()
    ensures runs { LegalLogsRun }
    ensures goes_on { AcceptedIsLegal }
    ensures room { LegalLogsHaveRoom }
{}

/// A start or a step changes threads of its own execution alone.
pub fn moves_leave_others()
    ensures starts { StartsLeaveOthers }
    ensures steps { StepsLeaveOthers }
{}

/// A step followed by its undoing changes nothing, and the undoing of a step on which nothing depends, followed by that step, gives
/// all of it back.
pub fn undoing_is_exact()
    ensures step { UndoTakesBack }
    ensures start { UndoTakesBackStart }
    ensures again { AgainGivesBack }
{}

/// A step is undone exactly where it remains and nothing depends directly on it, and refused for the first that does, and where it
/// was settled.
pub fn undo_answers_are_exact()
    ensures { UndoAnswersAreExact }
{}

/// A settlement leaves the world as it was, as the base of the steps to come; and what was settled stays so.
pub fn settling_is_for_good()
    ensures world { SettlingKeepsTheWorld }
    ensures stays { SettledStaysSettled }
{}

/// What is left of a hold shrinks by the undoing and the rollback of its steps alone: it is over after as many undoings of these as
/// it began with. Its step is the first that is left, and the last that is left can be undone.
pub fn holds_are_shared()
    ensures after { LeftIsAfter }
    ensures stands { HoldsStand }
    ensures none { NothingIsLeft }
    ensures shared { HoldsAreShared }
{}

/// Every order in which each step is free at its turn is accepted, one result for the same steps; and one that is accepted holds
/// with each step all its consequences.
pub fn orders_undo()
    ensures taken { BackwardOrdersAreAccepted }
    ensures whole { AcceptedOrdersAreClosed }
    ensures agree { OrdersAgree }
{}

/// A rollback takes back a step and its consequences and no other, and leaves the run of the rest.
pub fn rollback_is_exact()
    ensures { RollbackIsExact }
{}

/// Every list of remaining steps that can be run is rerun, and every linearization that keeps directly dependent steps in their order,
/// to the same world.
pub fn reruns_agree()
    ensures legal { RerunsAreLegal }
    ensures exact { RerunsAreExact }
    ensures arranged { StepOrdersAgree }
{}

/// `==` says whether two entries are one: what they have room for is no part of it.
pub fn equality_is_of_entries()
    ensures { EqualityIsOfEntries }
{}
