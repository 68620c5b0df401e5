//! Laws of what steps do and of what takes them back: each function's contract is the law.

ghost use Rattle.std.specs.Prelude.{◌≡◌};
ghost use Rattle.saved_steps.specs.Held.{world_view};
ghost use Rattle.saved_steps.specs.Laws.{UndoneAtOnce, UndoneLater, TakenAgain, EffectsLeave, LeftToUndo, StartIsEffect, WorkIsEffect, JoinIsEffect, TerminateIsEffect};
ghost use Rattle.saved_steps.specs.Made.{CanApply, KeepsStore};

use crate::made::Made;
use crate::world::World;

/// Applies a step and undoes it: the whole world is as it was. Takes no memory.
pub fn taken_back(world: &mut World, made: Made)
    requires { CanApply world.old made }
    ensures same { world_view world.new ≡ world_view world.old }
    ensures store { KeepsStore world.old.items world.new.items }
{
    let taken = world.apply(made);
    world.undo(taken);
}

/// What is kept of a step takes it back, at once and with other steps between, and its effect takes it again.
pub fn steps_are_taken_back()
    ensures at_once { UndoneAtOnce }
    ensures later { UndoneLater }
    ensures again { TakenAgain }
{}

/// Where each step leaves its thread, and that this is where its record needs the thread to be.
pub fn steps_leave_threads()
    ensures effects { EffectsLeave }
    ensures records { LeftToUndo }
{}

/// What is worked out of a thread's frame is what its move does, and a first frame what its start does.
pub fn nexts_are_moves()
    ensures start { StartIsEffect }
    ensures work { WorkIsEffect }
    ensures join { JoinIsEffect }
    ensures terminate { TerminateIsEffect }
{}
