// What a holder of the queue knows, and how its steps change that. No value of these types is made.
use crate::slips::Slip;
use crossbeam_queue::protocol::{Join, Lesson, Outcome, Protocol, Split};
use std::collections::LinkedList;

// Which numbers it put and took, and its parts of the right to know the whole.
pub struct Hand {
    pub parts: u64,
    pub put: LinkedList<u64>,
    pub taken: LinkedList<u64>,
}

// Each number was put as often as it was taken or lies there still.
pub struct Balance;

impl<T> Protocol<Slip<T>, Hand> for Balance {
    ghost use Rattle.std.specs.Prelude.{[]};
    ghost use Rattle.slip_queue.specs.Slips.{Balanced, all_parts, hand};

    ghost holds = { Balanced };

    ghost first = { hand all_parts [] [] };
}

pub(crate) struct Cut;

impl Split<Hand> for Cut {
    ghost use Rattle.std.specs.Prelude.{[], ◌-◌};
    ghost use Rattle.slip_queue.specs.Slips.{hand};

    ghost left = { λ v. hand (v.parts - 1) v.put v.taken };

    ghost right = { λ v. hand 1 [] [] };
}

impl Join<Hand> for Cut {
    ghost use Rattle.std.specs.Prelude.{[], ◌+◌, ◌++◌};
    ghost use Rattle.slip_queue.specs.Slips.{hand};

    ghost both = { λ v w. hand (v.parts + w.parts) (v.put ++ w.put) (v.taken ++ w.taken) };

    ghost spent = { hand 0 [] [] };
}

pub(crate) struct Gives;

impl<T> Outcome<Slip<T>, Hand> for Gives {
    ghost use Rattle.std.specs.Prelude.{◌≡◌, [], ◌∷◌, ◌++◌};
    ghost use Rattle.slip_queue.specs.Slips.{hand};

    ghost then = { λ v slip w. w ≡ hand v.parts (v.put ++ slip.number ∷ []) v.taken };
}

pub(crate) struct Takes;

impl<T> Outcome<Slip<T>, Hand> for Takes {
    ghost use Rattle.std.specs.Prelude.{◌≡◌, [], ◌∷◌, ◌++◌};
    ghost use Rattle.slip_queue.specs.Slips.{hand};

    ghost then = { λ v slip w. w ≡ hand v.parts v.put (v.taken ++ slip.number ∷ []) };
}

pub(crate) struct Adds;

impl<T> Lesson<Slip<T>, Hand> for Adds {
    ghost use Rattle.std.specs.Prelude.{◌≡◌, ℕ, ◌+◌};
    ghost use Rattle.slip_queue.specs.Slips.{numbers, times};

    ghost fact = { λ v slips. (x : ℕ) → times x v.put ≡ times x v.taken + times x (numbers slips) };
}
