//! The marks of all kinds.

ghost use Rattle.std.specs.Prelude.{◌≡◌, ◌∷◌, ◌++◌, ◌||◌, [], List, IfOk, OnOk};
ghost use Rattle.std.specs.List.{list_any};
ghost use Rattle.depends.specs.Dependence.{awaits, begins, conflicts, depends_directly};
ghost use Rattle.saved_steps.specs.Steps.{closes, makes};
ghost use Rattle.saved_steps.specs.declared.fact.Fact.{Fact as Step};
ghost use Rattle.depends.specs.Kinds.{AreThreads, AreUnder, is_of_thread};
ghost use Rattle.depends.specs.Marks.{AreMarksOf};

use crate::above::forks_above;
use crate::forks::ForkMarks;
use crate::keys::KeyMarks;
use crate::starts::StartMarks;
use crate::thread_marks::ThreadMarks;
use crate::under::UnderMarks;
use saved_steps::Fact;
use std::alloc::{AllocError, Global};

/// What steps leave by which a later one is told that depends directly on one of them: their threads, the starts and forks among
/// them, the forks above them, and the keys of the items that they read or wrote.
#[derive(Drop)]
pub struct Marks {
    alloc: Global,
    threads: ThreadMarks,
    starts: StartMarks,
    forks: ForkMarks,
    under: UnderMarks,
    keys: KeyMarks,
}

impl Marks {
    /// The marks of no steps. Takes no memory.
    pub fn new(alloc: Global) -> Marks
        ensures { AreMarksOf [] result }
    {
        Marks {
            alloc,
            threads: ThreadMarks::new(alloc),
            starts: StartMarks::new(alloc),
            forks: ForkMarks::new(alloc),
            under: UnderMarks::new(alloc),
            keys: KeyMarks::new(alloc),
        }
    }

    /// Adds the marks of a step. Takes memory for its name, for that of each fork above it and for its key, where these have no mark
    /// yet. Takes a look-up by hash for the name and the key, and at the first step of a thread, for each fork above it, time in the
    /// logarithm of their number. After an error the marks are of no use any more.
    pub fn add(&mut self, fact: &Fact) -> Result<(), AllocError>
        ensures { OnOk result ((facts : List Step) → AreMarksOf facts self.old → AreMarksOf (facts ++ fact.now ∷ []) self.new) }
    {
        add_thread(self.alloc, &mut self.threads, &mut self.under, fact)?;
        self.starts.add(fact)?;
        self.forks.add(fact)?;
        self.keys.add(fact)
    }

    /// Whether a later step depends directly on one of those that left the marks. None of these is looked at. Takes the time
    /// of `add`, and memory for the names of the forks above it.
    pub fn marks(&self, later: &Fact) -> Result<bool, AllocError>
        ensures { IfOk result (λ b. (facts : List Step) → AreMarksOf facts self.now → b ≡ list_any (λ g. depends_directly g later.now) facts) }
    {
        if self.has_itself(later)? {
            return Ok(true);
        }
        self.has_above(later)
    }

    /// Whether it does for an item, for its thread, or as a step of a started execution.
    fn has_itself(&self, later: &Fact) -> Result<bool, AllocError>
        ensures { IfOk result (λ b. (facts : List Step) → AreMarksOf facts self.now
            → b ≡ (list_any (λ g. conflicts g.access later.now.access) facts || (list_any (is_of_thread later.now.name.thread) facts || list_any (λ g. begins g later.now.name.thread) facts))) }
    {
        if self.keys.has(&later.access) {
            return Ok(true);
        }
        let thread = &later.name.thread;
        if self.threads.has(thread) {
            return Ok(true);
        }
        let exec = thread.exec_text()?;
        Ok(self.starts.has(&exec))
    }

    /// Whether it does for a fork: one above it, one that it closes, or its own under a bound.
    fn has_above(&self, later: &Fact) -> Result<bool, AllocError>
        ensures { IfOk result (λ b. (facts : List Step) → AreMarksOf facts self.now
            → b ≡ (list_any (λ g. makes g later.now.name.thread) facts || (list_any (λ g. closes later.now g.name.thread) facts || list_any (λ g. awaits later.now g.name.thread) facts))) }
    {
        if self.under.has_closed(later)? {
            return Ok(true);
        }
        let above = forks_above(self.alloc, &later.name.thread)?;
        if self.forks.has_above(above.as_slice()) {
            return Ok(true);
        }
        Ok(self.under.has_awaited(later, above.as_slice()))
    }
}

/// Adds the marks of a step's thread and of the forks above it. A thread that has its mark has left them all before.
fn add_thread(
    alloc: Global,
    threads: &mut ThreadMarks,
    under: &mut UnderMarks,
    fact: &Fact,
) -> Result<(), AllocError>
    ensures { OnOk result ((facts : List Step) → AreThreads facts threads.old → AreUnder facts under.old
        → AreThreads (facts ++ fact.now ∷ []) threads.new × AreUnder (facts ++ fact.now ∷ []) under.new) }
{
    if threads.has(&fact.name.thread) {
        return Ok(());
    }
    threads.add(fact)?;
    under.add(alloc, fact)
}
