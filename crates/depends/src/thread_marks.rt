// Marks of threads.
ghost use Rattle.std.specs.Prelude.{◌≡◌, ◌∷◌, ◌++◌, [], List, OnOk, nat_eq, option_map};
ghost use Rattle.std.specs.Hash.FoldHasher.{finish};
ghost use Rattle.std.specs.HashMap.{get};
ghost use Rattle.std.specs.List.{list_any};
ghost use Rattle.saved_steps.specs.World.{is_same_thread};
ghost use Rattle.saved_steps.specs.declared.fact.Fact.{Fact as Step};
ghost use Rattle.depends.specs.Hashes.{thread_hash};
ghost use Rattle.depends.specs.Kinds.{AreThreads, is_of_thread};

use saved_steps::Fact;
use std::alloc::{AllocError, Global};
use std::collections::{BTreeSet, HashMap};
use std::hash::{FoldHasher, Hash, Hasher};
use step_names::ThreadName;

/// The threads of steps: of each hash the first, and those whose hash another had before.
#[derive(Drop)]
pub(crate) struct ThreadMarks {
    first: HashMap<u64, ThreadName>,
    others: BTreeSet<ThreadName>,
}

impl ThreadMarks {
    pub(crate) fn new(alloc: Global) -> ThreadMarks
        ensures { AreThreads [] result }
    {
        ThreadMarks {
            first: HashMap::new(alloc),
            others: BTreeSet::new(alloc),
        }
    }

    pub(crate) fn add(&mut self, fact: &Fact) -> Result<(), AllocError>
        ensures { OnOk result ((facts : List Step) → AreThreads facts self.old → AreThreads (facts ++ fact.now ∷ []) self.new) }
    {
        let thread = &fact.name.thread;
        let hash = thread_hash(thread);
        match self.is_first(hash, thread) {
            Some(true) => return Ok(()),
            Some(false) => {
                self.others.insert(thread.copy()?)?;
                return Ok(());
            }
            None => {}
        }
        self.first.insert(hash, thread.copy()?)?;
        Ok(())
    }

    /// Whether a step is of this thread.
    pub(crate) fn has(&self, thread: &ThreadName) -> bool
        ensures { (facts : List Step) → AreThreads facts self.now → result ≡ list_any (is_of_thread thread.now) facts }
    {
        match self.is_first(thread_hash(thread), thread) {
            Some(true) => true,
            Some(false) | None => self.others.contains(thread),
        }
    }

    /// Whether the first thread of a hash is this one, if there is one.
    fn is_first(&self, hash: u64, thread: &ThreadName) -> Option<bool>
        ensures { result ≡ option_map (λ t. is_same_thread t thread.now) (get nat_eq self.now.first hash) }
    {
        match self.first.get(&hash) {
            Some(name) => Some(name == thread),
            None => None,
        }
    }
}

#[tactic(auto, unfolding(crate::specs::Hashes::thread_hash))]
fn thread_hash(thread: &ThreadName) -> u64
    ensures { result ≡ thread_hash thread.now }
{
    let mut hasher = FoldHasher::default();
    thread.exec().hash(&mut hasher);
    thread.path().hash(&mut hasher);
    hasher.finish()
}
