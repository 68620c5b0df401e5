//! What is true of lists of steps on any machine whose independent steps commute: undoing a step in the middle, what comes
//! after a step, orders of undoings, linearizations of a run, and what is left of consequences that are held.
//!
//! `specs/Traces.antt` has the definitions and the theorems, and each function here has one of them as its contract. A crate
//! whose steps they are to be about gives a `Machine`, and shows that its steps have footprints (`specs/Footprints.antt`, from
//! which `proofs/Planned.antt` has that it is reversible) and that a run has each name once (`proofs/Names.antt`, from what a
//! world tells of the names that were taken). `proofs/Runs.antt` leads from a predicate that each step keeps to all worlds
//! that runs reach, and `proofs/Base.antt` has that such a world is reversible again. For code that keeps the records of a run, `proofs/Records.antt` has the theorems at a place in a list of
//! records and over a filter on names, and `proofs/Held.antt` has them of one event at a time.
//!
//! `specs/Counters.antt` has a small machine that forks and joins, for which all of this is shown.
#![tactic(auto)]

mod laws;

pub use laws::{
    consequences_are_least, counters_are_reversible, free_steps_undo, held_consequences_are_left,
    linearizations_agree, neighbours_swap, orders_undo, plans_are_reversible,
    reached_worlds_are_reversible,
};
