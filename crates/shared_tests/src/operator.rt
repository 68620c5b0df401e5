//! An operator who takes steps back, in a thread of his own beside the workers of a round.
ghost use Rattle.std.specs.Prelude.{◌≡◌, ◌<◌, ◌≤◌, IfSome, slice_get, vec_len};
ghost use denote.Param.Send.{IsSend, IsSync};

use crate::hot::{name_of, start_shared};
use book_log::Refusal;
use rollback_book::Events;
use shared_book::{Pass, Shared, SharedRefusal, Sharing};
use std::alloc::Global;
use std::sync::Wait;
use std::sync::atomic::{AtomicBool, AtomicU64, Ordering};
use std::sync::ledger::Ledger;
use std::thread;
use std::thread::{JoinHandle, Scope, Threads};
use step_names::{StepName, ThreadName};
use step_workers::{Gate, Outcome, work};

// ---- who goes how fast

/// How many moves the workers have tried, and whether the operator has begun and the workers have ended.
#[derive(Drop)]
pub(crate) struct Pace {
    moves: AtomicU64,
    has_begun: AtomicBool,
    is_over: AtomicBool,
}

const MOST_TURNS: u32 = 1_000_000;

impl Gate for Pace {
    fn before_commit(&self, _seat: u32) {}

    fn after_commit(&self, _seat: u32) {
        self.moves.fetch_add(1, Ordering::SeqCst);
    }
}

impl Pace {
    pub(crate) fn new() -> Pace {
        Pace {
            moves: AtomicU64::new(0),
            has_begun: AtomicBool::new(false),
            is_over: AtomicBool::new(false),
        }
    }

    /// Waits for the operator, for so many turns at most.
    fn wait_for_operator(&self) {
        for _ in 0..MOST_TURNS {
            if self.has_begun.load(Ordering::SeqCst) {
                return;
            }
            thread::yield_now();
        }
    }

    /// Waits for so many moves or the workers' end, for so many turns at most.
    fn wait_for_moves(&self, moves: u64) {
        for _ in 0..MOST_TURNS {
            if self.is_over.load(Ordering::SeqCst) || self.moves.load(Ordering::SeqCst) >= moves {
                return;
            }
            thread::yield_now();
        }
    }
}

// ---- what the operator does

/// What he has, and where his numbers are drawn from.
#[derive(Drop)]
pub(crate) struct Operator<L: Ledger> {
    pub(crate) pass: Pass<L>,
    pub(crate) drawn: u32,
    pub(crate) executions: u32,
    pub(crate) acts: u32,
    /// How many moves there are for each act.
    pub(crate) pace: u32,
    /// How often a call was refused for another reason than what the workers or he himself had done before.
    pub(crate) faults: u32,
}

/// A number below the bound, and the next to draw from.
fn draw(drawn: &mut u32, bound: u32) -> u32 {
    *drawn = drawn.wrapping_mul(1_664_525).wrapping_add(1_013_904_223);
    if bound == 0 {
        return 0;
    }
    (*drawn >> 8) % bound
}

/// Which thread of an execution: its own, or a branch.
fn thread_of(alloc: Global, number: u32, which: u32) -> Result<ThreadName, SharedRefusal> {
    match name_of(alloc, number, which) {
        Ok(thread) => Ok(thread),
        Err(_refused) => Err(SharedRefusal::Refused(Refusal::Memory)),
    }
}

/// How a step is taken back.
#[derive(Clone, Copy)]
enum Way {
    Undo,
    Rollback,
    Hold,
}

/// Takes back a step.
fn take_back<B: Events, L: Sharing>(
    rt: &impl Wait,
    alloc: Global,
    shared: &Shared<B, L>,
    pass: &mut Pass<L>,
    step: &StepName,
    way: Way,
) -> Result<(), SharedRefusal> {
    let answer = match way {
        Way::Undo => shared.undo(rt, alloc, pass, step),
        Way::Rollback => shared.rollback(rt, alloc, pass, step),
        Way::Hold => shared.hold(rt, alloc, pass, step),
    };
    match answer {
        Ok(receipt) => {
            drop(receipt);
            Ok(())
        }
        Err(refusal) => Err(refusal),
    }
}

/// Takes back all that is left of a hold.
fn take_held_back<B: Events, L: Sharing>(
    rt: &impl Wait,
    alloc: Global,
    shared: &Shared<B, L>,
    pass: &mut Pass<L>,
) -> Result<(), SharedRefusal> {
    for _ in 0..65_536u32 {
        match shared.undo_held(rt, alloc, pass) {
            Ok(receipt) => drop(receipt),
            Err(SharedRefusal::Refused(Refusal::NoStep)) => return Ok(()),
            Err(refusal) => return Err(refusal),
        }
    }
    Ok(())
}

/// The act of this number: mostly the latest step of a thread is undone; sometimes one of its steps is rolled back, or held and taken
/// back; and sometimes an execution is rolled back with its start, and started again.
fn act<B: Events, L: Sharing>(
    rt: &impl Wait,
    alloc: Global,
    shared: &Shared<B, L>,
    operator: &mut Operator<L>,
    number: u32,
) -> Result<(), SharedRefusal> {
    let execution = draw(&mut operator.drawn, operator.executions);
    let which = draw(&mut operator.drawn, 4).saturating_sub(1);
    let thread = thread_of(alloc, execution, which)?;
    let count = count_of(rt, shared, &mut operator.pass, &thread)?;
    if count == 0 {
        return Ok(());
    }
    let no = draw(&mut operator.drawn, count).saturating_add(1);
    let pass = &mut operator.pass;
    match number % 8 {
        1 => take_back(
            rt,
            alloc,
            shared,
            pass,
            &StepName { thread, no },
            Way::Rollback,
        ),
        3 if which == 0 => {
            let step = StepName { thread, no: 0 };
            take_back(rt, alloc, shared, pass, &step, Way::Rollback)?;
            start_shared(rt, alloc, shared, pass, execution)
        }
        5 => {
            take_back(rt, alloc, shared, pass, &StepName { thread, no }, Way::Hold)?;
            take_held_back(rt, alloc, shared, pass)
        }
        _ => {
            let step = StepName { thread, no: count };
            take_back(rt, alloc, shared, pass, &step, Way::Undo)
        }
    }
}

/// How many steps a thread has taken.
fn count_of<B: Events, L: Sharing>(
    rt: &impl Wait,
    shared: &Shared<B, L>,
    pass: &mut Pass<L>,
    thread: &ThreadName,
) -> Result<u32, SharedRefusal> {
    let shown = shared.show(rt, pass, thread)?;
    let count = shown.frame.count;
    drop(shown);
    Ok(count)
}

/// Whether it is refused for what was done before.
fn is_overtaken(refusal: &SharedRefusal) -> bool {
    matches!(
        refusal,
        SharedRefusal::Refused(Refusal::NoThread | Refusal::NoStep | Refusal::HasDependents(_))
    )
}

/// All acts, each as soon as there were so many moves, or the workers have ended.
fn operate<B: Events, L: Sharing, R: Wait>(
    rt: &R,
    alloc: Global,
    shared: &Shared<B, L>,
    pace: &Pace,
    operator: Operator<L>,
) -> Operator<L> {
    let mut operator = operator;
    pace.has_begun.store(true, Ordering::SeqCst);
    for number in 0..operator.acts {
        pace.wait_for_moves((number as u64).saturating_mul(operator.pace as u64));
        if let Err(refusal) = act(rt, alloc, shared, &mut operator, number) {
            if !is_overtaken(&refusal) {
                operator.faults = operator.faults.saturating_add(1);
            }
            drop(refusal);
        }
    }
    operator
}

// ---- his thread

/// What both give.
#[derive(Drop)]
pub(crate) struct Both<L: Ledger> {
    pub(crate) worked: Result<Outcome<L>, Vec<Pass<L>>>,
    pub(crate) operator: Operator<L>,
}

/// Starts his thread. Where none can be made, he waits for nobody.
fn start<'s, E, B, L, R>(
    rt: &'s R,
    alloc: Global,
    scope: &Scope<'s, E>,
    shared: &'s Shared<B, L>,
    pace: &'s Pace,
    operator: Operator<L>,
) -> Result<JoinHandle<Operator<L>>, Operator<L>>
where
    B: Events + Send,
    L: Sharing + Send + Sync,
    R: Threads + Wait + Sync,
{
    match scope.spawn(move || operate(rt, alloc, shared, pace, operator)) {
        Ok(handle) => Ok(handle),
        Err(refused) => {
            pace.is_over.store(true, Ordering::SeqCst);
            Err((refused.value)())
        }
    }
}

/// Has the operator at work beside the workers, and waits for all.
fn run_beside<'s, E, B, L, R>(
    rt: &'s R,
    alloc: Global,
    scope: &Scope<'s, E>,
    shared: &'s Shared<B, L>,
    pace: &'s Pace,
    passes: Vec<Pass<L>>,
    budget: u32,
    operator: Operator<L>,
) -> Both<L>
where
    B: Events + Send,
    L: Sharing + Send + Sync,
    R: Threads + Wait + Sync,
    requires bounds { IsSend B.row × IsSend L.row × IsSync L.row × IsSync R.row }
    requires some { (0 < vec_len passes) × (vec_len passes ≤ 8) }
    requires seat { IfSome (slice_get passes.items 0) (λ p. 2 ≤ p.parts) }
{
    let started = start(rt, alloc, scope, shared, pace, operator);
    pace.wait_for_operator();
    let worked = work(rt, alloc, shared, passes, budget, pace);
    pace.is_over.store(true, Ordering::SeqCst);
    let operator = match started {
        Ok(handle) => handle.join(rt),
        Err(operator) => operator,
    };
    Both { worked, operator }
}

/// As `run_beside`, in a scope of its own.
pub(crate) fn work_beside<B, L, R>(
    rt: &R,
    alloc: Global,
    shared: &Shared<B, L>,
    pace: &Pace,
    passes: Vec<Pass<L>>,
    budget: u32,
    operator: Operator<L>,
) -> Both<L>
where
    B: Events + Send,
    L: Sharing + Send + Sync,
    R: Threads + Wait + Sync,
    requires some { (0 < vec_len passes) × (vec_len passes ≤ 8) }
    requires seat { IfSome (slice_get passes.items 0) (λ p. 2 ≤ p.parts) }
{
    thread::scope(
        thread::scope_env(),
        rt,
        move |scope| -> Both<L>
            requires { IsSend B.row × IsSend L.row × IsSync L.row × IsSync R.row × (0 < vec_len passes) × (vec_len passes ≤ 8) × IfSome (slice_get passes.items 0) (λ p. 2 ≤ p.parts) }
        { run_beside(rt, alloc, scope, shared, pace, passes, budget, operator) },
    )
}
