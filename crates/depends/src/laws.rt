//! Laws of taking steps back: each function's contract is the law, and it does nothing.
//!
//! They are of runs: lists of steps that were taken one after another from a world without executions, or from one that such a
//! run reaches, each with its fact and with what it kept (`specs/Instance.antt`, over the definitions of the theory of commuting steps).

ghost use Rattle.depends.specs.Reasons.{ReasonsAreDependences};
ghost use Rattle.depends.specs.Laws.{RunsAreSeen, StepsAreReversible, StepsHaveNames, StepsSwap, StepsUndo, ConsequencesAreLeast, UndoOrdersAgree, StepLinearizationsAgree, HeldStepsAreLeft, PlansAreConsequences, MaximalStepsHaveNoDependent};

/// Steps commute where they do not depend on each other, in every world that a run reaches; and a run has each name once.
pub fn steps_are_reversible()
    ensures lawful { StepsAreReversible }
    ensures names { StepsHaveNames }
    ensures runs { RunsAreSeen }
{}

/// Neighbours of which the later does not depend directly on the earlier swap: one world, the same facts, and the same is kept.
pub fn neighbours_swap()
    ensures { StepsSwap }
{}

/// A step on which no later one depends directly is undone from the present world, by what it kept; what is left is the run of
/// the others. Taken again it stands last, with all as before.
pub fn free_steps_undo()
    ensures { StepsUndo }
{}

/// The consequences of a step are the least set that holds it and each later step that depends directly on a member.
pub fn consequences_are_least()
    ensures { ConsequencesAreLeast }
{}

/// Every order in which each step is free at its turn leaves the run of the rest, one world for one set, and takes with each
/// step all its consequences; these have such an order, from the last to the first.
pub fn orders_undo()
    ensures { UndoOrdersAgree }
{}

/// Every linearization of a run that keeps directly dependent steps in their order can be run, to the same world, and name by name
/// with the same facts and the same kept.
pub fn linearizations_agree()
    ensures { StepLinearizationsAgree }
{}

/// What is left of held consequences goes down by one with each undoing of a member, and by nothing else that may happen.
pub fn held_consequences_are_left()
    ensures { HeldStepsAreLeft }
{}

/// The plan of a step of a run is its consequences, from the last to the first; and a step has no dependent just where it is free.
pub fn plans_are_consequences()
    ensures plan { PlansAreConsequences }
    ensures first { MaximalStepsHaveNoDependent }
{}

/// A step depends directly on an earlier one just where there is a reason why.
pub fn reasons_are_dependences()
    ensures { ReasonsAreDependences }
{}
