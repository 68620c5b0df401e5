//! Laws over the definitions of names: each function's contract is the law, and it does nothing.

ghost use Rattle.step_names.specs.Laws.{ThreadReadsBack, ThreadWritesBack, ThreadTextIsOne, ThreadTextIsBounded, LongestThread, StepReadsBack, StepWritesBack, StepTextIsOne, StepTextIsBounded, LongestStep, ChildIsUnder, UnderIsTransitive, UnderIsOne, UnderIsBelow, UnderIsOneWay, AboveIsInLine, ThreadOrderIsExact, StepOrderIsExact, UnderComesLater};
ghost use Rattle.std.specs.Prelude.{◌≡◌};
ghost use Rattle.std.specs.Bool.{Decides};
ghost use Rattle.step_names.specs.Order.{thread_cmp, step_cmp};
ghost use Rattle.step_names.specs.Thread.{Thread};
ghost use Rattle.step_names.specs.declared.step.StepName.{StepName as Step};

use crate::step::StepName;
use crate::thread::ThreadName;

/// A thread's name has one spelling, and that spelling names no other thread.
pub fn thread_spelling()
    ensures reads_back { ThreadReadsBack }
    ensures writes_back { ThreadWritesBack }
    ensures one { ThreadTextIsOne }
    ensures bounded { ThreadTextIsBounded }
    ensures longest { LongestThread }
{}

/// The same of a step's name.
pub fn step_spelling()
    ensures reads_back { StepReadsBack }
    ensures writes_back { StepWritesBack }
    ensures one { StepTextIsOne }
    ensures bounded { StepTextIsBounded }
    ensures longest { LongestStep }
{}

/// How threads lie under forks.
pub fn forks_nest()
    ensures child { ChildIsUnder }
    ensures transitive { UnderIsTransitive }
    ensures one_fork { UnderIsOne }
    ensures below { UnderIsBelow }
    ensures one_way { UnderIsOneWay }
    ensures in_line { AboveIsInLine }
{}

/// By what names are ordered, and that two names are equal where they are one.
pub fn names_in_order()
    ensures threads { (a b : Thread) → ⟦<ThreadName as Ord>⟧.cmp a b ≡ thread_cmp a b }
    ensures steps { (a b : Step) → ⟦<StepName as Ord>⟧.cmp a b ≡ step_cmp a b }
    ensures threads_equal { (a b : Thread) → Decides (⟦<ThreadName as PartialEq>⟧.eq a b) (a ≡ b) }
    ensures steps_equal { (a b : Step) → Decides (⟦<StepName as PartialEq>⟧.eq a b) (a ≡ b) }
    ensures threads_exact { ThreadOrderIsExact }
    ensures steps_exact { StepOrderIsExact }
    ensures later { UnderComesLater }
{}
