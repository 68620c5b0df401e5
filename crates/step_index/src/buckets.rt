//! In which class a step is, by the hash of a part of its fact.

ghost use Rattle.std.specs.Prelude.{◌≡◌, ◌<◌, ◌≤◌, ◌%◌, ◌||◌, ℕ, IfSome, Some, length};
ghost use Rattle.std.specs.Hash.FoldHasher.{finish};
ghost use Rattle.depends.specs.Dependence.{is_start};
ghost use Rattle.saved_steps.specs.Steps.{is_fork};
ghost use Rattle.step_index.specs.Buckets.{thread_at_depth, by_home, by_name, by_thread, by_exec, by_gate, by_key, by_write, name_bucket, thread_bucket, exec_bucket, key_bucket, is_gate, all_classes, set_number};
ghost use Rattle.linked_classes.specs.Cells.{cell_at};

use attr_values::Key;
use item_store::AccessMode;
use saved_steps::{Fact, Kind};
use std::hash::{FoldHasher, Hash, Hasher};
use step_names::{StepName, ThreadName};

/// How many classes there are: a prime number.
pub(crate) const BUCKETS: u32 = 16_381;

/// By what steps are in classes.
#[derive(Clone, Copy, Debug, Drop)]
pub(crate) enum Classing {
    Names,
    Threads,
    Execs,
    /// By their executions, of those alone that close a fork or waited for branches.
    Gates,
    Keys,
    /// By their keys, of those alone that wrote.
    Writes,
}

/// The number of a set of classes.
pub(crate) fn set_number(set: Classing) -> u32
    ensures number { result ≡ set_number set }
    ensures below { result < 6 }
{
    match set {
        Classing::Names => 0,
        Classing::Threads => 1,
        Classing::Execs => 2,
        Classing::Gates => 3,
        Classing::Keys => 4,
        Classing::Writes => 5,
    }
}

/// The class of a step in each set.
pub(crate) fn all_classes(fact: &Fact) -> [Option<u32>; 6]
    ensures classes { result ≡ all_classes fact.now }
    ensures below { (set : ℕ) → set < 6 → IfSome (cell_at result set) (λ c. c < 16381) }
{
    let name = &fact.name;
    [
        Some(name_bucket(name)),
        Some(thread_bucket(&name.thread)),
        Some(exec_bucket(name.thread.exec())),
        gate_bucket(fact),
        access_bucket(fact),
        write_bucket(fact),
    ]
}

/// The class of a step's name.
#[tactic(auto, unfolding(crate::specs::Buckets::name_bucket))]
pub(crate) fn name_bucket(name: &StepName) -> u32
    ensures bucket { result ≡ name_bucket name.now }
    ensures below { result < 16381 }
{
    let mut hasher = FoldHasher::default();
    name.thread.exec().hash(&mut hasher);
    name.thread.path().hash(&mut hasher);
    name.no.hash(&mut hasher);
    bucket_of(&hasher)
}

/// The class of a thread.
#[tactic(auto, unfolding(crate::specs::Buckets::thread_bucket))]
pub(crate) fn thread_bucket(thread: &ThreadName) -> u32
    ensures bucket { result ≡ thread_bucket thread.now }
    ensures below { result < 16381 }
{
    let mut hasher = FoldHasher::default();
    thread.exec().hash(&mut hasher);
    thread.path().hash(&mut hasher);
    bucket_of(&hasher)
}

/// The class of the thread above one, or of it itself, that has so many of its branches.
#[tactic(auto, unfolding(crate::specs::Buckets::thread_bucket))]
pub(crate) fn bucket_above(thread: &ThreadName, depth: usize) -> u32
    requires { depth ≤ length thread.now.path }
    ensures bucket { result ≡ thread_bucket (thread_at_depth thread.now depth) }
    ensures below { result < 16381 }
{
    let mut hasher = FoldHasher::default();
    thread.exec().hash(&mut hasher);
    thread.path()[..depth].hash(&mut hasher);
    bucket_of(&hasher)
}

/// The class of the thread where a step is at home.
pub(crate) fn home_bucket(fact: &Fact) -> u32
    ensures bucket { Some result ≡ by_home fact.now }
    ensures below { result < 16381 }
{
    match fact.kind {
        Kind::Start => bucket_above(&fact.name.thread, 0),
        _ => thread_bucket(&fact.name.thread),
    }
}

/// The class of an execution.
#[tactic(auto, unfolding(crate::specs::Buckets::exec_bucket))]
pub(crate) fn exec_bucket(exec: &str) -> u32
    ensures bucket { result ≡ exec_bucket exec.now }
    ensures below { result < 16381 }
{
    let mut hasher = FoldHasher::default();
    exec.hash(&mut hasher);
    bucket_of(&hasher)
}

/// The class of the execution of a step that closes a fork, or that waited for branches under a bound.
pub(crate) fn gate_bucket(fact: &Fact) -> Option<u32>
    ensures bucket { result ≡ by_gate fact.now }
    ensures below { IfSome result (λ b. b < 16381) }
{
    if !is_gate(fact) {
        return None;
    }
    Some(exec_bucket(fact.name.thread.exec()))
}

/// Whether a step closes a fork, or waited for branches under a bound.
pub(crate) fn is_gate(fact: &Fact) -> bool
    ensures { result ≡ is_gate fact.now }
{
    match fact.kind {
        Kind::Join | Kind::Terminate => true,
        Kind::Start | Kind::Plain | Kind::Call | Kind::Fork => fact.bound != 0,
    }
}

/// Whether threads are there by a step of this kind.
pub(crate) fn makes_threads(kind: Kind) -> bool
    ensures { result ≡ (is_start kind || is_fork kind) }
{
    matches!(kind, Kind::Start | Kind::Fork)
}

/// The class of the key that a step touched.
pub(crate) fn access_bucket(fact: &Fact) -> Option<u32>
    ensures bucket { result ≡ by_key fact.now }
    ensures below { IfSome result (λ b. b < 16381) }
{
    match &fact.access {
        Some(access) => Some(key_bucket(&access.key)),
        None => None,
    }
}

/// The class of the key that a step wrote.
pub(crate) fn write_bucket(fact: &Fact) -> Option<u32>
    ensures bucket { result ≡ by_write fact.now }
    ensures below { IfSome result (λ b. b < 16381) }
{
    let Some(access) = &fact.access else {
        return None;
    };
    match access.mode {
        AccessMode::Write => Some(key_bucket(&access.key)),
        AccessMode::Read => None,
    }
}

/// The class of a key.
#[tactic(auto, unfolding(crate::specs::Buckets::key_bucket))]
pub(crate) fn key_bucket(key: &Key) -> u32
    ensures bucket { result ≡ key_bucket key.now }
    ensures below { result < 16381 }
{
    let mut hasher = FoldHasher::default();
    key.hash(&mut hasher);
    bucket_of(&hasher)
}

fn bucket_of(hasher: &FoldHasher) -> u32
    ensures bucket { result ≡ finish hasher.now % 16381 }
    ensures below { result < 16381 }
{
    (hasher.finish() % BUCKETS as u64) as u32
}
