//! Laws of histories: each function's contract is the law, and it does nothing.

ghost use Rattle.step_history.specs.Levels.{FramesStand, ThreadsMoveWhereReady};
ghost use Rattle.step_history.specs.Laws.{FramesAreCounted, MoreMachinesKeepHistories, BackwardOrdersUndo, MaximalStepsReturn};

/// A frame counts no further than the frames of the base and so many steps more, and a parked one has made one.
pub fn frames_are_counted()
    ensures { FramesAreCounted }
{}

/// A history in one setting is one in each setting that has the same machines and perhaps more.
pub fn more_machines_keep_histories()
    ensures { MoreMachinesKeepHistories }
{}

/// Every order in which each step is free at its turn leaves the run of the rest, and takes with each step all its
/// consequences.
pub fn backward_orders_undo()
    ensures { BackwardOrdersUndo }
{}

/// A free step that is undone can be taken again, and then stands last, with all as before.
pub fn free_steps_return()
    ensures { MaximalStepsReturn }
{}

/// In a setting whose machines are whole, every frame stands before a state of its machine, as deep as its thread's name.
pub fn frames_stand()
    ensures { FramesStand }
{}

/// There a thread has a move just where it is ready, or can join or terminate.
pub fn threads_move_where_ready()
    ensures { ThreadsMoveWhereReady }
{}
