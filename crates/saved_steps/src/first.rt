// The first thread that has a move.
ghost use Rattle.std.specs.Prelude.{◌≡◌, ◌⊎◌, ℕ, List, [], Bool, true, false, None, Some, IfOk, IfSome, MatchOption};
ghost use Rattle.std.specs.Bool.{OnTrue};
ghost use Rattle.std.specs.BTreeSet.{contains};
ghost use Rattle.std.specs.Str.{bytes_eq};
ghost use Rattle.std.specs.String.{string_bytes};
ghost use Rattle.branch_tree.specs.First.{IsFirstFree, NoneBeforePath};
ghost use Rattle.branch_tree.specs.Tree.{frame_at};
ghost use Rattle.step_names.specs.Order.{thread_cmp};
ghost use Rattle.step_names.specs.Thread.{Thread, execution};
ghost use Rattle.saved_steps.specs.First.{AreQuiet, IsFirstReady, IsGoneBy, NoneBeforeThread, NoneFreeBefore};
ghost use Rattle.saved_steps.specs.Held.{rows_at, frames_in};

use crate::places::Trees;
use crate::quiet::{Quiet, rewrite};
use asl_forward::Phase;
use branch_tree::{Tree, below_is_parked};
use json_tree::Text;
use std::alloc::{AllocError, Global};
use std::cmp::Ordering;
use std::collections::BTreeSet;
use step_names::ThreadName;

/// Whether an execution is done or has failed, so that no thread of it has a move.
fn has_ended(tree: &Tree) -> bool
    ensures { OnTrue result ((base : Thread) (passed : Thread → Bool) → IsFirstFree true (frame_at tree.now) base passed None) }
{
    below_is_parked();
    match tree.find(&[]) {
        Some(frame) => matches!(&frame.phase, Phase::Done(_) | Phase::Failed(_)),
        None => false,
    }
}

/// Whether there is no execution in a place, or one that has ended.
fn is_quiet(place: &Option<Tree>) -> bool
    ensures { OnTrue result ((base : Thread) (passed : Thread → Bool) → IsFirstFree true (rows_at place.now) base passed None) }
{
    match place {
        Some(tree) => has_ended(tree),
        None => true,
    }
}

/// The first thread of an execution that has a move and is not passed by, none before a path being so. Takes no memory if the
/// execution has ended.
fn first_in(
    alloc: Global,
    exec: &str,
    place: &Option<Tree>,
    path: &[(u32, u32)],
    passed: &BTreeSet<ThreadName>,
) -> Result<Option<ThreadName>, AllocError>
    requires { NoneBeforePath true (rows_at place.now) (execution exec.now) (contains thread_cmp passed.now) path.now }
    ensures { IfOk result (λ found. IsFirstFree true (rows_at place.now) (execution exec.now) (contains thread_cmp passed.now) found) }
{
    let Some(tree) = place else {
        return Ok(None);
    };
    if has_ended(tree) {
        return Ok(None);
    }
    let Some(name) = ThreadName::new(alloc, Text::new(alloc, exec)?) else {
        return Ok(None);
    };
    tree.first_ready(alloc, &name, path, passed)
}

/// Where the search begins in an execution: at the path, if that is in this one.
fn path_in<'a>(exec: &str, from: &str, path: &'a [(u32, u32)]) -> &'a [(u32, u32)]
    ensures { ((exec.now ≡ from.now) × (result.now ≡ path.now)) ⊎ (result.now ≡ []) }
{
    if exec == from { path } else { &[] }
}

/// The same of the execution that is awake, if its name is before the other one that is quiet, and no thread before one that is given
/// as its execution and its path is free. Nothing if no thread of an execution before the quiet name is free.
fn first_awake(
    alloc: Global,
    trees: &Trees,
    quiet: &Quiet,
    from: &String,
    path: &[(u32, u32)],
    passed: &BTreeSet<ThreadName>,
) -> Result<Option<ThreadName>, AllocError>
    requires quiet { AreQuiet trees.now (string_bytes quiet.now.name) (string_bytes quiet.now.awake) }
    requires from { NoneBeforeThread (frames_in trees.now) (contains thread_cmp passed.now) (string_bytes from.now) path.now }
    ensures { IfOk result (λ found. MatchOption found
        (NoneFreeBefore (frames_in trees.now) (contains thread_cmp passed.now) (string_bytes quiet.now.name))
        (λ t. IsFirstReady (frames_in trees.now) (contains thread_cmp passed.now) (Some t))) }
{
    let awake = quiet.awake.as_str();
    match awake.cmp(quiet.name.as_str()) {
        Ordering::Less => {}
        _ => return Ok(None),
    }
    if let Ordering::Less = awake.cmp(from.as_str()) {
        return Ok(None);
    }
    let under = path_in(awake, from.as_str(), path);
    let place = match trees.get(awake) {
        Some(place) => place,
        None => return Ok(None),
    };
    match first_in(alloc, awake, place, under, passed)? {
        Some(found) => {
            let _ = found.path();
            Ok(Some(found))
        }
        None => Ok(None),
    }
}

/// The first thread of all executions, none being free before one that is given as its execution and its path.
fn first_from(
    alloc: Global,
    trees: &Trees,
    from: &String,
    path: &[(u32, u32)],
    passed: &BTreeSet<ThreadName>,
) -> Result<Option<ThreadName>, AllocError>
    requires { NoneBeforeThread (frames_in trees.now) (contains thread_cmp passed.now) (string_bytes from.now) path.now }
    ensures { IfOk result (λ found. IsFirstReady (frames_in trees.now) (contains thread_cmp passed.now) found) }
{
    for (exec, place) in trees.range(from..) {
        let name = exec.as_str();
        let under = path_in(name, from.as_str(), path);
        if let Some(found) = first_in(alloc, name, place, under, passed)? {
            let _ = found.path();
            return Ok(Some(found));
        }
    }
    Ok(None)
}

/// The first thread of all executions, some of which are gone by, and none being free before one that is given as its execution and
/// its path.
pub(crate) fn first_among(
    alloc: Global,
    trees: &Trees,
    quiet: &Quiet,
    from: &String,
    path: &[(u32, u32)],
    passed: &BTreeSet<ThreadName>,
) -> Result<Option<ThreadName>, AllocError>
    requires quiet { AreQuiet trees.now (string_bytes quiet.now.name) (string_bytes quiet.now.awake) }
    requires from { NoneBeforeThread (frames_in trees.now) (contains thread_cmp passed.now) (string_bytes from.now) path.now }
    ensures { IfOk result (λ found. IsFirstReady (frames_in trees.now) (contains thread_cmp passed.now) found) }
{
    let found = first_awake(alloc, trees, quiet, from, path, passed)?;
    if found.is_some() {
        return Ok(found);
    }
    match from.as_str().cmp(quiet.name.as_str()) {
        Ordering::Less => first_from(alloc, trees, &quiet.name, &[], passed),
        _ => first_from(alloc, trees, from, path, passed),
    }
}

// ---- up to which name none has a move

/// Whether the execution that is awake has no thread with a move, or isn't before the name.
fn sleeps_again(trees: &Trees, quiet: &Quiet) -> bool
    requires { AreQuiet trees.now (string_bytes quiet.now.name) (string_bytes quiet.now.awake) }
    ensures { OnTrue result (AreQuiet trees.now (string_bytes quiet.now.name) []) }
{
    let awake = quiet.awake.as_str();
    match awake.cmp(quiet.name.as_str()) {
        Ordering::Less => {}
        _ => return true,
    }
    match trees.get(awake) {
        Some(place) => is_quiet(place),
        None => true,
    }
}

/// The name of the first execution that hasn't ended, from a name on; the last one's where all have.
fn first_with_a_move<'a>(trees: &'a Trees, quiet: &Quiet) -> Option<&'a String>
    requires { AreQuiet trees.now (string_bytes quiet.now.name) (string_bytes quiet.now.awake) }
    ensures { IfSome result (λ name. AreQuiet trees.now (string_bytes name.now) (string_bytes quiet.now.awake)) }
{
    for (exec, place) in trees.range(&quiet.name..) {
        if !is_quiet(place) {
            return Some(exec);
        }
    }
    match trees.last_key_value() {
        Some((exec, _)) => Some(exec),
        None => None,
    }
}

/// Goes on to the first execution that hasn't ended.
fn raise(trees: &Trees, quiet: &mut Quiet)
    requires { AreQuiet trees.now (string_bytes quiet.old.name) (string_bytes quiet.old.awake) }
    ensures { AreQuiet trees.now (string_bytes quiet.new.name) (string_bytes quiet.new.awake) }
{
    if let Some(name) = first_with_a_move(trees, quiet) {
        if name.as_str() != quiet.name.as_str() {
            rewrite(&mut quiet.name, name.as_str());
        }
    }
}

/// Goes by what has ended, the one that was awake too. Looks at nothing where the name can't have to go on.
pub(crate) fn go_on(trees: &Trees, quiet: &mut Quiet)
    requires { AreQuiet trees.now (string_bytes quiet.old.name) (string_bytes quiet.old.awake) }
    ensures { AreQuiet trees.now (string_bytes quiet.new.name) (string_bytes quiet.new.awake) }
{
    if quiet.stays {
        return;
    }
    if !quiet.make_room() {
        return;
    }
    if !quiet.awake.is_empty() && sleeps_again(trees, quiet) {
        quiet.awake.clear();
    }
    raise(trees, quiet);
    quiet.stays = true;
}

/// Lets the execution that is awake sleep where another is to wake, if it has no thread with a move any more. So the name stays where
/// executions are undone and go on one after another.
fn let_sleep(trees: &Trees, quiet: &mut Quiet, exec: &str)
    requires { AreQuiet trees.now (string_bytes quiet.old.name) (string_bytes quiet.old.awake) }
    ensures { AreQuiet trees.now (string_bytes quiet.new.name) (string_bytes quiet.new.awake) }
{
    if quiet.awake.is_empty() || quiet.awake.as_str() == exec {
        return;
    }
    if sleeps_again(trees, quiet) {
        quiet.awake.clear();
    }
}

/// Goes by an execution no more. Takes no memory: a look-up where another one is awake.
pub(crate) fn wake(trees: &Trees, quiet: &mut Quiet, exec: &str)
    requires { AreQuiet trees.now (string_bytes quiet.old.name) (string_bytes quiet.old.awake) }
    ensures quiet { AreQuiet trees.now (string_bytes quiet.new.name) (string_bytes quiet.new.awake) }
    ensures wakes { (e : List ℕ) → (bytes_eq [] e ≡ false) → IsGoneBy (string_bytes quiet.new.name) (string_bytes quiet.new.awake) e
        → bytes_eq exec.now e ≡ false }
{
    let_sleep(trees, quiet, exec);
    quiet.wake(exec);
}
