//! Trees of branches, whose threads were worked out by hand: branches are taken out and given back, and as many levels and branches as there
//! may be.
ghost use Rattle.std.specs.Prelude.{◌≡◌, length, IfOk, IfSome, IsSomeAnd, true, false};
ghost use Rattle.std.specs.Bool.{OnTrue};
ghost use Rattle.std.specs.List.{All};
ghost use Rattle.branch_tree.specs.FlatMap.{IsTree, is_parked};
ghost use Rattle.branch_tree.specs.Tree.{frame_at, IsNode};

use asl_forward::{Fault, Frame, Origin, Phase, Retries};
use asl_machine::{Level, LevelPath};
use branch_tree::{Branch, Readiness, Tree};
use json_tree::{Json, Text};
use std::alloc::{AllocError, Global};
use std::collections::BTreeSet;
use std::test::Fail;
use step_names::ThreadName;

/// Where a thread is, without its values.
#[derive(Clone, Copy, Debug, PartialEq, Eq)]
enum State {
    Ready,
    Parked(u32),
    Done,
    Failed,
}

/// What is done at a path: a step that forks into so many branches, or one that leaves the frame in a state.
#[derive(Clone, Copy)]
enum Act {
    Fork(u32, u32),
    Put(u32, State),
}

/// What a tree shows at a path: how many moves the thread made and where it is, and what it can do.
type Look = (&'static [(u32, u32)], Option<(u32, State)>, Readiness);

fn state_of(phase: &Phase) -> State {
    match phase {
        Phase::Ready => State::Ready,
        Phase::Parked(n, _) => State::Parked(*n),
        Phase::Done(_) => State::Done,
        Phase::Failed(_) => State::Failed,
    }
}

fn is_parked(phase: &Phase) -> bool
    ensures { result ≡ is_parked phase.now }
{
    matches!(phase, Phase::Parked(_, _))
}

fn fault(alloc: Global) -> Result<Fault, AllocError> {
    Ok(Fault {
        error: Text::new(alloc, "X")?,
        cause: Text::new(alloc, "y")?,
        origin: Origin::Other,
    })
}

fn phase(alloc: Global, state: State) -> Result<Phase, AllocError> {
    Ok(match state {
        State::Ready => Phase::Ready,
        State::Parked(n) => Phase::Parked(n, 0),
        State::Done => Phase::Done(Json::Null),
        State::Failed => Phase::Failed(fault(alloc)?),
    })
}

fn frame(level: Level, state: Text, alloc: Global, count: u32, phase: Phase) -> Frame
    ensures { result.phase ≡ phase }
{
    Frame {
        level,
        state,
        raw: Json::Null,
        retries: Retries::none(alloc),
        count,
        phase,
    }
}

fn level(alloc: Global) -> Result<Level, AllocError> {
    Ok(Level {
        machine: Text::new(alloc, "m")?,
        path: LevelPath::outermost(alloc),
    })
}

/// A frame after so many moves.
fn frame_in(alloc: Global, count: u32, phase: Phase) -> Result<Frame, AllocError>
    ensures { IfOk result (λ f. f.phase ≡ phase) }
{
    let Ok(level) = level(alloc) else {
        drop(phase);
        return Err(AllocError);
    };
    let Ok(state) = Text::new(alloc, "S") else {
        drop(phase);
        drop(level);
        return Err(AllocError);
    };
    Ok(frame(level, state, alloc, count, phase))
}

fn ready_frames(alloc: Global, count: u32) -> Result<Vec<Frame>, AllocError>
    ensures len { IfOk result (λ frames. length frames.items ≡ count) }
    ensures open { IfOk result (λ frames. All (λ f. is_parked f.phase ≡ false) frames.items) }
{
    let mut frames = Vec::new(alloc);
    for _ in 0..count {
        frames.push(frame_in(alloc, 0, Phase::Ready)?)?;
    }
    Ok(frames)
}

fn ready_branches(alloc: Global, count: u32) -> Result<Vec<Branch>, AllocError>
    ensures len { IfOk result (λ kids. length kids.items ≡ count) }
    ensures trees { IfOk result (λ kids. All (λ kid. IsTree (frame_at kid)) kids.items) }
{
    let frames = ready_frames(alloc, count)?;
    Branch::leaves(alloc, frames)
}

fn ready_tree(alloc: Global) -> Result<Tree, AllocError> {
    let frame = frame_in(alloc, 0, Phase::Ready)?;
    Ok(Tree::new(alloc, frame))
}

/// Whether a frame stands at the path that is parked, or that is not.
fn has(tree: &Tree, path: &[(u32, u32)], parked: bool) -> bool
    ensures { OnTrue result (IsSomeAnd (frame_at tree.now path.now) (λ f. is_parked f.phase ≡ parked)) }
{
    match tree.find(path) {
        Some(frame) => is_parked(&frame.phase) == parked,
        None => false,
    }
}

/// Forks the thread at the path by its step of this number.
fn fork(
    alloc: Global,
    tree: &mut Tree,
    path: &[(u32, u32)],
    count: u32,
    branches: u32,
) -> Result<bool, AllocError> {
    let parked = frame_in(alloc, count, Phase::Parked(branches, 0))?;
    let Ok(kids) = ready_branches(alloc, branches) else {
        drop(parked);
        return Err(AllocError);
    };
    if !has(tree, path, false) {
        return Ok(false);
    }
    drop(tree.fork(path, parked, kids));
    Ok(true)
}

/// Leaves the thread at the path in a state, after so many moves.
fn put(
    alloc: Global,
    tree: &mut Tree,
    path: &[(u32, u32)],
    count: u32,
    state: State,
) -> Result<bool, AllocError> {
    let phase = phase(alloc, state)?;
    let frame = frame_in(alloc, count, phase)?;
    if is_parked(&frame.phase) || !has(tree, path, false) {
        return Ok(false);
    }
    drop(tree.replace(path, frame));
    Ok(true)
}

fn do_act(
    alloc: Global,
    tree: &mut Tree,
    path: &[(u32, u32)],
    act: Act,
) -> Result<bool, AllocError> {
    match act {
        Act::Fork(count, branches) => fork(alloc, tree, path, count, branches),
        Act::Put(count, state) => put(alloc, tree, path, count, state),
    }
}

/// Whether all acts could be done.
fn acts(alloc: Global, tree: &mut Tree, acts: &[(&[(u32, u32)], Act)]) -> Result<bool, AllocError> {
    for &(path, next) in acts {
        if !do_act(alloc, tree, path, next)? {
            return Ok(false);
        }
    }
    Ok(true)
}

fn look(tree: &Tree, path: &[(u32, u32)]) -> Option<(u32, State)> {
    let frame = tree.find(path)?;
    Some((frame.count, state_of(&frame.phase)))
}

/// The first look that shows something else.
fn odd_look(tree: &Tree, looks: &[Look]) -> Option<usize> {
    looks.iter().position(|&(path, frame, ready)| look(tree, path) != frame
        || tree.ready(path) != ready)
}

/// Takes the branches out from under a path.
fn taken(
    alloc: Global,
    tree: &mut Tree,
    path: &[(u32, u32)],
    count: u32,
) -> Result<Option<(Frame, Vec<Branch>)>, AllocError>
    ensures { IfOk result (λ taken. IfSome taken (λ p. IsNode p.0 p.1.items)) }
{
    let frame = frame_in(alloc, count, Phase::Ready)?;
    if !has(tree, path, true) {
        return Ok(None);
    }
    Ok(Some(tree.take_kids(path, frame)))
}

/// Takes the branches out from under a path, looks, and gives them back. How many branches there were, where the looks
/// were right.
fn taken_and_given(
    alloc: Global,
    tree: &mut Tree,
    path: &[(u32, u32)],
    looks: &[Look],
) -> Result<Option<usize>, AllocError> {
    let Some((frame, kids)) = taken(alloc, tree, path, 99)? else {
        return Ok(None);
    };
    let branches = kids.len();
    let is_right = look(tree, path) == Some((99, State::Ready)) && odd_look(tree, looks).is_none();
    if !has(tree, path, false) {
        return Ok(None);
    }
    drop(tree.give_kids(path, frame, kids));
    Ok(if is_right { Some(branches) } else { None })
}

const FORKED: &[(&[(u32, u32)], Act)] = &[
    (&[], Act::Put(1, State::Ready)),
    (&[], Act::Fork(2, 3)),
    (&[(2, 1)], Act::Fork(1, 2)),
    (&[(2, 1), (1, 0)], Act::Fork(1, 0)),
    (&[(2, 1), (1, 1)], Act::Put(1, State::Failed)),
    (&[(2, 2)], Act::Put(1, State::Done)),
];

const FORKED_LOOKS: &[Look] = &[
    (&[], Some((2, State::Parked(3))), Readiness::Waiting),
    (&[(2, 0)], Some((0, State::Ready)), Readiness::Ready),
    (&[(2, 1)], Some((1, State::Parked(2))), Readiness::Terminate),
    (
        &[(2, 1), (1, 0)],
        Some((1, State::Parked(0))),
        Readiness::Join,
    ),
    (
        &[(2, 1), (1, 1)],
        Some((1, State::Failed)),
        Readiness::Failed,
    ),
    (&[(2, 2)], Some((1, State::Done)), Readiness::Done),
    (&[(2, 3)], None, Readiness::NoThread),
    (&[(1, 0)], None, Readiness::NoThread),
    (&[(3, 0)], None, Readiness::NoThread),
    (&[(2, 0), (0, 0)], None, Readiness::NoThread),
    (&[(2, 1), (1, 2)], None, Readiness::NoThread),
    (&[(2, 1), (1, 0), (1, 0)], None, Readiness::NoThread),
    (&[(2, 1), (1, 1), (1, 0)], None, Readiness::NoThread),
];

const ROOT_ALONE: &[Look] = &[
    (&[], Some((99, State::Ready)), Readiness::Ready),
    (&[(2, 0)], None, Readiness::NoThread),
    (&[(2, 1)], None, Readiness::NoThread),
    (&[(2, 1), (1, 0)], None, Readiness::NoThread),
    (&[(2, 2)], None, Readiness::NoThread),
];

const FORK_BELOW_GONE: &[Look] = &[
    (&[], Some((2, State::Parked(3))), Readiness::Waiting),
    (&[(2, 0)], Some((0, State::Ready)), Readiness::Ready),
    (&[(2, 1)], Some((99, State::Ready)), Readiness::Ready),
    (&[(2, 1), (1, 0)], None, Readiness::NoThread),
    (&[(2, 1), (1, 1)], None, Readiness::NoThread),
    (&[(2, 2)], Some((1, State::Done)), Readiness::Done),
];

const EMPTY_FORK_GONE: &[Look] = &[
    (&[(2, 1)], Some((1, State::Parked(2))), Readiness::Terminate),
    (
        &[(2, 1), (1, 0)],
        Some((99, State::Ready)),
        Readiness::Ready,
    ),
];

#[test]
fn shows_threads(rt: HostRuntime) -> Result<(), Fail> {
    let alloc = rt.alloc();
    let mut tree = ready_tree(alloc)?;
    let is_done = acts(alloc, &mut tree, FORKED)?;
    let odd = odd_look(&tree, FORKED_LOOKS);
    drop(tree);
    assert!(rt; is_done);
    assert_eq!(rt; odd, None);
    Ok(())
}

/// Which thread is first, where some are passed by.
const FIRSTS: &[(&[&str], &str)] = &[
    (&[], "E/2.0"),
    (&["E", "F/2.0", "E/1.0"], "E/2.0"),
    (&["E/2.0"], "E/2.1"),
    (&["E/2.1"], "E/2.0"),
    (&["E/2.0", "E/2.1"], "E/2.1/1.0"),
    (&["E/2.1/1.0", "E/2.0"], "E/2.1"),
    (&["E/2.1/1.0", "E/2.1", "E/2.0"], ""),
];

fn threads(alloc: Global, texts: &[&str]) -> Result<BTreeSet<ThreadName>, Fail> {
    let mut names = BTreeSet::new(alloc);
    for &text in texts {
        names.insert(ThreadName::read(alloc, text)?)?;
    }
    Ok(names)
}

/// Whether this thread is the first, or none where the text is empty.
fn is_first(alloc: Global, tree: &Tree, passed: &[&str], text: &str) -> Result<bool, Fail> {
    let execution = ThreadName::read(alloc, "E")?;
    let passed = threads(alloc, passed)?;
    match tree.first_ready(alloc, &execution, &[], &passed)? {
        Some(first) => Ok(first.write_text(alloc)?.as_str() == text),
        None => Ok(text.is_empty()),
    }
}

fn odd_first(alloc: Global, tree: &Tree) -> Result<Option<usize>, Fail> {
    for (i, &(passed, first)) in FIRSTS.iter().enumerate() {
        if !is_first(alloc, tree, passed, first)? {
            return Ok(Some(i));
        }
    }
    Ok(None)
}

#[test]
fn finds_the_first(rt: HostRuntime) -> Result<(), Fail> {
    let alloc = rt.alloc();
    let mut tree = ready_tree(alloc)?;
    let is_ready = is_first(alloc, &tree, &[], "E")?;
    let is_done = acts(alloc, &mut tree, FORKED)?;
    let odd = odd_first(alloc, &tree)?;
    drop(tree);
    assert!(rt; is_ready && is_done);
    assert_eq!(rt; odd, None);
    Ok(())
}

/// Branches are taken out and given back at a path of the tree above. How many there were, where all was right.
fn rounds(alloc: Global, path: &[(u32, u32)], looks: &[Look]) -> Result<Option<usize>, AllocError> {
    let mut tree = ready_tree(alloc)?;
    if !acts(alloc, &mut tree, FORKED)? {
        return Ok(None);
    }
    let branches = taken_and_given(alloc, &mut tree, path, looks)?;
    Ok(match odd_look(&tree, FORKED_LOOKS) {
        None => branches,
        Some(_) => None,
    })
}

#[test]
fn gives_back_branches(rt: HostRuntime) -> Result<(), Fail> {
    let alloc = rt.alloc();
    let root = rounds(alloc, &[], ROOT_ALONE)?;
    let below = rounds(alloc, &[(2, 1)], FORK_BELOW_GONE)?;
    let empty = rounds(alloc, &[(2, 1), (1, 0)], EMPTY_FORK_GONE)?;
    let none = rounds(alloc, &[(2, 0)], ROOT_ALONE)?;
    assert_eq!(rt; (root, below), (Some(3), Some(2)));
    assert_eq!(rt; (empty, none), (Some(0), None));
    Ok(())
}

/// What a fork of three can do, whose branches end one after another.
const ENDS: &[(&[(u32, u32)], State, Readiness)] = &[
    (&[(1, 2)], State::Done, Readiness::Waiting),
    (&[(1, 0)], State::Done, Readiness::Waiting),
    (&[(1, 1)], State::Done, Readiness::Join),
    (&[(1, 1)], State::Ready, Readiness::Waiting),
    (&[(1, 2)], State::Failed, Readiness::Terminate),
    (&[(1, 1)], State::Failed, Readiness::Terminate),
];

fn odd_end(alloc: Global, tree: &mut Tree) -> Result<Option<usize>, AllocError> {
    for (i, &(path, state, ready)) in ENDS.iter().enumerate() {
        if !put(alloc, tree, path, 1, state)? || tree.ready(&[]) != ready {
            return Ok(Some(i));
        }
    }
    Ok(None)
}

#[test]
fn joins_and_terminates(rt: HostRuntime) -> Result<(), Fail> {
    let alloc = rt.alloc();
    let mut tree = ready_tree(alloc)?;
    let is_forked = fork(alloc, &mut tree, &[], 1, 3)?;
    let odd = odd_end(alloc, &mut tree)?;
    drop(tree);
    assert!(rt; is_forked);
    assert_eq!(rt; odd, None);
    Ok(())
}

const FORKED_AGAIN: &[Look] = &[
    (&[], Some((3, State::Parked(1))), Readiness::Waiting),
    (&[(1, 0)], None, Readiness::NoThread),
    (&[(2, 0)], None, Readiness::NoThread),
    (&[(3, 0)], Some((0, State::Ready)), Readiness::Ready),
    (&[(3, 1)], None, Readiness::NoThread),
];

/// A fork by step 1, a join by step 2, and a fork by step 3.
fn forked_again(alloc: Global, tree: &mut Tree) -> Result<bool, AllocError> {
    if !fork(alloc, tree, &[], 1, 1)? {
        return Ok(false);
    }
    drop(taken(alloc, tree, &[], 2)?);
    fork(alloc, tree, &[], 3, 1)
}

#[test]
fn earlier_forks_are_gone(rt: HostRuntime) -> Result<(), Fail> {
    let alloc = rt.alloc();
    let mut tree = ready_tree(alloc)?;
    let is_forked = forked_again(alloc, &mut tree)?;
    let odd = odd_look(&tree, FORKED_AGAIN);
    drop(tree);
    assert!(rt; is_forked);
    assert_eq!(rt; odd, None);
    Ok(())
}

/// The path of the last branches of the forks by the first step, as many as there are levels under the root.
fn deep_path(alloc: Global, levels: usize) -> Result<Vec<(u32, u32)>, AllocError> {
    vec![in alloc; (1, 1); levels]
}

/// Forks the last branch of the tree at each level, from the path's beginning to its end.
fn deepen(alloc: Global, tree: &mut Tree, path: &[(u32, u32)]) -> Result<bool, AllocError> {
    for level in 0..path.len() {
        if !fork(alloc, tree, &path[..level], 1, 2)? {
            return Ok(false);
        }
    }
    Ok(true)
}

/// Whether a tree of 31 levels under its root shows its deepest thread and none below, also after branches were taken out
/// and given back at the root and at the last fork.
fn keeps_levels(alloc: Global, tree: &mut Tree, path: &[(u32, u32)]) -> Result<bool, AllocError> {
    let [front @ .., _] = path else {
        return Ok(false);
    };
    let is_built = deepen(alloc, tree, front)?;
    let is_there = look(tree, front) == Some((0, State::Ready)) && look(tree, path).is_none();
    let root = taken_and_given(alloc, tree, &[], &[])?;
    let last = match front {
        [above @ .., _] => taken_and_given(alloc, tree, above, &[])?,
        [] => None,
    };
    let is_still_there = look(tree, front) == Some((0, State::Ready)) && look(tree, path).is_none();
    Ok(is_built && is_there && is_still_there && root == Some(2) && last == Some(2))
}

#[test]
fn has_31_levels(rt: HostRuntime) -> Result<(), Fail> {
    let alloc = rt.alloc();
    let path = deep_path(alloc, 32)?;
    let mut tree = ready_tree(alloc)?;
    let is_kept = keeps_levels(alloc, &mut tree, path.as_slice())?;
    drop(tree);
    assert!(rt; is_kept);
    Ok(())
}

const MANY: u32 = 4_096;

/// Ends each branch of a fork, and answers how often the fork could already join before the last one.
fn early_joins(alloc: Global, tree: &mut Tree) -> Result<Option<u32>, AllocError> {
    let mut joins = 0u32;
    for branch in 0..MANY {
        if tree.ready(&[]) != Readiness::Waiting {
            joins = joins.saturating_add(1);
        }
        if !put(alloc, tree, &[(1, branch)], 1, State::Done)? {
            return Ok(None);
        }
    }
    Ok(Some(joins))
}

#[test]
fn has_4096_branches(rt: HostRuntime) -> Result<(), Fail> {
    let alloc = rt.alloc();
    let mut tree = ready_tree(alloc)?;
    let is_forked = fork(alloc, &mut tree, &[], 1, MANY)?;
    let early = early_joins(alloc, &mut tree)?;
    let ready = tree.ready(&[]);
    let past = look(&tree, &[(1, MANY)]);
    let branches = taken_and_given(alloc, &mut tree, &[], ROOT_ALONE)?;
    let last = look(&tree, &[(1, 4_095)]);
    drop(tree);
    assert!(rt; is_forked);
    assert_eq!(rt; (early, ready), (Some(0), Readiness::Join));
    assert_eq!(rt; (past, branches), (None, Some(4_096)));
    assert_eq!(rt; last, Some((1, State::Done)));
    Ok(())
}

/// The moves of a frame that a branch gave back, and of one that a tree did.
fn ends(alloc: Global) -> Result<(u32, u32, u32), AllocError> {
    let branch = Branch::new(alloc, frame_in(alloc, 5, Phase::Ready)?);
    let count = branch.frame().count;
    let branch_count = branch.into_frame().count;
    Ok((count, branch_count, ready_tree(alloc)?.into_frame().count))
}

#[test]
fn begins_and_ends(rt: HostRuntime) -> Result<(), Fail> {
    assert_eq!(rt; ends(rt.alloc())?, (5, 5, 0));
    Ok(())
}
