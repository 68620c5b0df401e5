// The trees of executions, each at its execution's name.
ghost use Rattle.std.specs.Prelude.{◌≡◌, ℕ, List, [], ◌++◌, is_some, None, Some, true, false, option_copied, option_map, IfSome, IsSomeAnd, OnOk, if◌then◌else◌};
ghost use Rattle.std.specs.BTreeMap.{get_by_text};
ghost use Rattle.std.specs.Str.{bytes_eq};
ghost use Rattle.branch_tree.specs.FlatMap.{IsTree, is_parked, with_frame, grafted, alone};
ghost use Rattle.branch_tree.specs.Paths.{Path};
ghost use Rattle.branch_tree.specs.Bounds.{place_of};
ghost use Rattle.branch_tree.specs.Ready.{bound_over, readiness_at};
ghost use Rattle.branch_tree.specs.Tree.{node_at, IsNode};
ghost use Rattle.step_names.specs.Thread.{Thread};
ghost use Rattle.saved_steps.specs.Held.{tree_in, rows_at, frames_in, paths_of, put_at, with_thread};

use asl_forward::Frame;
use branch_tree::{Branch, Readiness, Tree};
use std::alloc::{AllocError, Global};
use std::collections::BTreeMap;
use step_names::ThreadName;

/// A place for each execution that has one, with its tree, or empty.
pub(crate) type Trees = BTreeMap<String, Option<Tree>>;

/// The trees, as a type of their own.
#[derive(Drop)]
pub(crate) struct Places {
    pub(crate) trees: Trees,
}

/// The tree of an execution.
pub(crate) fn tree_in<'a>(trees: &'a Trees, exec: &str) -> Option<&'a Tree>
    ensures { option_copied result ≡ tree_in trees.now exec.now }
{
    match trees.get(exec) {
        Some(place) => place.as_ref(),
        None => None,
    }
}

/// The frame of a thread.
pub(crate) fn frame_in<'a>(trees: &'a Trees, thread: &ThreadName) -> Option<&'a Frame>
    ensures value { option_copied result ≡ frames_in trees.now thread.now }
    ensures tree { IfSome result (λ f. IsTree (paths_of (frames_in trees.now) thread.now.exec)) }
{
    let tree = tree_in(trees, thread.exec())?;
    tree.find(thread.path())
}

/// The frame of a thread, and what it can do next.
pub(crate) fn look_up<'a>(trees: &'a Trees, thread: &ThreadName) -> Option<(&'a Frame, Readiness)>
    ensures frame { option_map (λ p. p.0.now) result ≡ frames_in trees.now thread.now }
    ensures ready { IfSome result (λ p. p.1 ≡ readiness_at (paths_of (frames_in trees.now) thread.now.exec) thread.now.path) }
{
    let tree = tree_in(trees, thread.exec())?;
    let frame = tree.find(thread.path())?;
    Some((frame, tree.ready(thread.path())))
}

/// The bound of the fork that a thread is a branch of; 0 is none.
pub(crate) fn bound_over(trees: &Trees, thread: &ThreadName) -> u32
    ensures { result ≡ bound_over (paths_of (frames_in trees.now) thread.now.exec) (place_of thread.now.path) }
{
    match tree_in(trees, thread.exec()) {
        Some(tree) => tree.bound_over(thread.path()),
        None => 0,
    }
}

// ---- places

/// Whether an execution has a tree, and so its own thread a frame.
pub(crate) fn has_tree(trees: &Trees, exec: &str) -> bool
    ensures tree { result ≡ is_some (tree_in trees.now exec.now) }
    ensures root { result ≡ is_some (rows_at (tree_in trees.now exec.now) []) }
{
    match tree_in(trees, exec) {
        Some(tree) => tree.find(&[]).is_some(),
        None => false,
    }
}

/// Makes an empty place for an execution that has no tree. Takes memory for a copy of the name, where there is no place.
pub(crate) fn make_place(trees: &mut Trees, alloc: Global, exec: &str) -> Result<(), AllocError>
    requires { tree_in trees.old exec.now ≡ None }
    ensures trees { (e : List ℕ) → tree_in trees.new e ≡ tree_in trees.old e }
    ensures place { OnOk result (get_by_text trees.new exec.now ≡ Some None) }
{
    if trees.contains_key(exec) {
        return Ok(());
    }
    let name = String::from_str(alloc, exec)?;
    drop(trees.insert(name, None)?);
    Ok(())
}

/// Puts a tree into its execution's place. Takes no memory.
pub(crate) fn put_tree(trees: &mut Trees, exec: &str, tree: Tree)
    requires { get_by_text trees.old exec.now ≡ Some None }
    ensures { (e : List ℕ) → tree_in trees.new e ≡ (if bytes_eq exec.now e then Some tree else tree_in trees.old e) }
{
    let place = trees.get_mut(exec).unwrap();
    *place = Some(tree);
}

/// Takes an execution's tree away, and its place. Takes no memory.
pub(crate) fn remove_tree(trees: &mut Trees, exec: &str)
    ensures { (e : List ℕ) → tree_in trees.new e ≡ (if bytes_eq exec.now e then None else tree_in trees.old e) }
{
    drop(trees.remove(exec));
}

// ---- frames in a place

fn replace_at(place: &mut Option<Tree>, path: &[(u32, u32)], frame: Frame) -> Frame
    requires open { IsSomeAnd (rows_at place.old path.now) (λ f. is_parked f.phase ≡ false) }
    requires next { is_parked frame.phase ≡ false }
    ensures was { rows_at place.old path.now ≡ Some result }
    ensures frames { (q : Path) → rows_at place.new q ≡ with_frame (rows_at place.old) path.now frame q }
{
    let Some(tree) = place else { unreachable!() };
    tree.replace(path, frame)
}

fn give_at(place: &mut Option<Tree>, path: &[(u32, u32)], frame: Frame, kids: Vec<Branch>) -> Frame
    requires open { IsSomeAnd (rows_at place.old path.now) (λ f. is_parked f.phase ≡ false) }
    requires node { IsNode frame kids.items }
    ensures was { rows_at place.old path.now ≡ Some result }
    ensures frames { (q : Path) → rows_at place.new q ≡ grafted (rows_at place.old) path.now (node_at frame kids.items) q }
    ensures tree { IsTree (rows_at place.old) }
{
    let Some(tree) = place else { unreachable!() };
    let _ = tree.find(path);
    tree.give_kids(path, frame, kids)
}

fn take_at(place: &mut Option<Tree>, path: &[(u32, u32)], frame: Frame) -> (Frame, Vec<Branch>)
    requires there { IsSomeAnd (rows_at place.old path.now) (λ f. is_parked f.phase ≡ true) }
    requires next { is_parked frame.phase ≡ false }
    ensures was { (q : Path) → rows_at place.old (path.now ++ q) ≡ node_at result.0 result.1.items q }
    ensures node { IsNode result.0 result.1.items }
    ensures frames { (q : Path) → rows_at place.new q ≡ grafted (rows_at place.old) path.now (alone frame) q }
    ensures tree { IsTree (rows_at place.old) }
{
    let Some(tree) = place else { unreachable!() };
    let _ = tree.find(path);
    tree.take_kids(path, frame)
}

// ---- frames of threads

/// Puts a frame in the place of a thread's, which comes back. Takes no memory.
pub(crate) fn replace(trees: &mut Trees, thread: &ThreadName, frame: Frame) -> Frame
    requires open { IsSomeAnd (frames_in trees.old thread.now) (λ f. is_parked f.phase ≡ false) }
    requires next { is_parked frame.phase ≡ false }
    ensures was { frames_in trees.old thread.now ≡ Some result }
    ensures frames { (t : Thread) → frames_in trees.new t ≡ with_thread (frames_in trees.old) thread.now frame t }
    ensures others { (e : List ℕ) → bytes_eq thread.now.exec e ≡ false → tree_in trees.new e ≡ tree_in trees.old e }
{
    let place = trees.get_mut(thread.exec()).unwrap();
    replace_at(place, thread.path(), frame)
}

/// Puts a frame and branches under it in the place of a thread's frame, which comes back. Takes no memory.
pub(crate) fn give(trees: &mut Trees, thread: &ThreadName, frame: Frame, kids: Vec<Branch>) -> Frame
    requires open { IsSomeAnd (frames_in trees.old thread.now) (λ f. is_parked f.phase ≡ false) }
    requires node { IsNode frame kids.items }
    ensures was { frames_in trees.old thread.now ≡ Some result }
    ensures frames { (t : Thread) → frames_in trees.new t ≡ put_at (frames_in trees.old) thread.now (node_at frame kids.items) t }
    ensures tree { IsTree (paths_of (frames_in trees.old) thread.now.exec) }
    ensures others { (e : List ℕ) → bytes_eq thread.now.exec e ≡ false → tree_in trees.new e ≡ tree_in trees.old e }
{
    let place = trees.get_mut(thread.exec()).unwrap();
    give_at(place, thread.path(), frame, kids)
}

/// Takes a thread's branches out, and puts a frame in the place of its own. Both come back. Takes no memory.
pub(crate) fn take(trees: &mut Trees, thread: &ThreadName, frame: Frame) -> (Frame, Vec<Branch>)
    requires there { IsSomeAnd (frames_in trees.old thread.now) (λ f. is_parked f.phase ≡ true) }
    requires next { is_parked frame.phase ≡ false }
    ensures was { (q : Path) → paths_of (frames_in trees.old) thread.now.exec (thread.now.path ++ q) ≡ node_at result.0 result.1.items q }
    ensures node { IsNode result.0 result.1.items }
    ensures frames { (t : Thread) → frames_in trees.new t ≡ put_at (frames_in trees.old) thread.now (alone frame) t }
    ensures tree { IsTree (paths_of (frames_in trees.old) thread.now.exec) }
    ensures others { (e : List ℕ) → bytes_eq thread.now.exec e ≡ false → tree_in trees.new e ≡ tree_in trees.old e }
{
    let place = trees.get_mut(thread.exec()).unwrap();
    take_at(place, thread.path(), frame)
}
