// The threads that a line touches.
use book_events::turns::{Frame, Phase};
use book_events::{BookCalls, Entry, Kind, Readiness, Refusal, Saved, StepRecord};
use command_lines::Command;
use std::alloc::{AllocError, Global};
use std::collections::BTreeMap;
use std::ops::Range;
use step_graph::{branch_of, closed_threads, thread_above};
use step_names::{StepName, ThreadName};

/// The threads that a line touches.
#[derive(Drop)]
pub struct Touched {
    /// Those that it brings to another place, gives back or takes away.
    pub(crate) moved: Vec<ThreadName>,
    /// The branches that go with a join or a terminate.
    pub(crate) closed: Vec<ThreadName>,
    /// Those whose next move changes though they stay where they are.
    pub(crate) beside: Vec<ThreadName>,
}

impl Touched {
    /// None. Takes no memory.
    pub fn none(alloc: Global) -> Touched {
        Touched {
            moved: Vec::new(alloc),
            closed: Vec::new(alloc),
            beside: Vec::new(alloc),
        }
    }

    /// The threads of steps that a command is about to take back. Asked before the command is given, since the steps are known
    /// only then. Takes what a plan takes, and memory for each thread.
    pub fn before<B: BookCalls>(
        alloc: Global,
        book: &B,
        command: &Command<'_>,
    ) -> Result<Touched, AllocError> {
        let mut touched = Touched::none(alloc);
        let added = match command {
            Command::Undo(step) => touched.add_step(alloc, book, step),
            Command::Rollback(step) => touched.add_plan(alloc, book, step),
            _ => Ok(()),
        };
        match added {
            Ok(()) => Ok(touched),
            Err(AllocError) => {
                drop(touched);
                Err(AllocError)
            }
        }
    }

    fn add_step<B: BookCalls>(
        &mut self,
        alloc: Global,
        book: &B,
        step: &StepName,
    ) -> Result<(), AllocError> {
        let records = book.history();
        match records.find(step) {
            Some(at) if at < records.len() => self.add_record(alloc, book, records.get(at)),
            _ => Ok(()),
        }
    }

    fn add_plan<B: BookCalls>(
        &mut self,
        alloc: Global,
        book: &B,
        step: &StepName,
    ) -> Result<(), AllocError> {
        let records = book.history();
        let Some(at) = records.find(step) else {
            return Ok(());
        };
        if at >= records.len() {
            return Ok(());
        }
        let plan = records.plan(alloc, at)?;
        let added = self.add_records(alloc, book, plan.places());
        drop(plan);
        added
    }

    fn add_records<B: BookCalls>(
        &mut self,
        alloc: Global,
        book: &B,
        places: &[usize],
    ) -> Result<(), AllocError> {
        let records = book.history();
        for place in places {
            if *place < records.len() {
                self.add_record(alloc, book, records.get(*place))?;
            }
        }
        Ok(())
    }

    /// The threads of a step that is taken back: its own, the branches that it forked, and those that it closed.
    fn add_record<B: BookCalls>(
        &mut self,
        alloc: Global,
        book: &B,
        kept: &StepRecord,
    ) -> Result<(), AllocError> {
        let name = &kept.fact.name;
        self.moved.push(name.thread.copy()?)?;
        match &kept.saved {
            Saved::Forked(_) => self.add_branches(alloc, book, name),
            Saved::Closed { .. } => add_names(&mut self.moved, closed_threads(alloc, kept)),
            _ => Ok(()),
        }
    }

    /// The branches of a fork whose thread is over them.
    fn add_branches<B: BookCalls>(
        &mut self,
        alloc: Global,
        book: &B,
        fork: &StepName,
    ) -> Result<(), AllocError> {
        let Some(frame) = frame_of(book, &fork.thread) else {
            return Ok(());
        };
        for index in 0..branches_of(frame) {
            let Some(branch) = branch_of(alloc, &fork.thread, fork.no, index)? else {
                break;
            };
            self.moved.push(branch)?;
        }
        Ok(())
    }

    /// The threads above these, whose next moves depend on them, and under a bound the branches that wait for them.
    fn add_around<B: BookCalls>(
        &mut self,
        alloc: Global,
        book: &B,
        ends: Ends,
    ) -> Result<(), AllocError> {
        let above = forks_above(alloc, self.moved.as_slice())?;
        let added = self.add_above(alloc, book, &above, ends);
        drop(above);
        added
    }

    fn add_above<B: BookCalls>(
        &mut self,
        alloc: Global,
        book: &B,
        above: &Forks,
        ends: Ends,
    ) -> Result<(), AllocError> {
        for (over, (fork, index)) in above.iter() {
            let Some(frame) = frame_of(book, over) else {
                continue;
            };
            self.beside.push(over.copy()?)?;
            let Phase::Parked(branches, bound) = &frame.phase else {
                continue;
            };
            if *bound > 0 {
                let from = index.saturating_add(*bound);
                self.add_waiting(alloc, book, over, *fork, from..*branches, ends)?;
            }
        }
        Ok(())
    }

    /// Branches under a bound. After a step only those up to the first that waits may have been freed; after an undoing each may wait
    /// that didn't.
    fn add_waiting<B: BookCalls>(
        &mut self,
        alloc: Global,
        book: &B,
        over: &ThreadName,
        fork: u32,
        branches: Range<u32>,
        ends: Ends,
    ) -> Result<(), AllocError> {
        for index in branches {
            let Some(branch) = branch_of(alloc, over, fork, index)? else {
                break;
            };
            let waits = self.add_beside(book, branch)?;
            if waits && matches!(ends, Ends::AtFirstThatWaits) {
                break;
            }
        }
        Ok(())
    }

    /// Adds a branch. Whether it waits.
    fn add_beside<B: BookCalls>(
        &mut self,
        book: &B,
        branch: ThreadName,
    ) -> Result<bool, AllocError> {
        match is_waiting(book, &branch) {
            Ok(waits) => {
                self.beside.push(branch)?;
                Ok(waits)
            }
            Err(AllocError) => {
                drop(branch);
                Err(AllocError)
            }
        }
    }
}

/// How far branches under a bound are looked at.
#[derive(Clone, Copy)]
enum Ends {
    AtFirstThatWaits,
    AtLast,
}

/// Of the threads above some branches, the fork and the least index of these branches.
type Forks = BTreeMap<ThreadName, (u32, u32)>;

fn forks_above(alloc: Global, threads: &[ThreadName]) -> Result<Forks, AllocError> {
    let mut above = BTreeMap::new(alloc);
    match note_forks(alloc, threads, &mut above) {
        Ok(()) => Ok(above),
        Err(AllocError) => {
            drop(above);
            Err(AllocError)
        }
    }
}

fn note_forks(alloc: Global, threads: &[ThreadName], above: &mut Forks) -> Result<(), AllocError> {
    for thread in threads {
        let Some(((fork, index), rest)) = thread.path().split_last() else {
            continue;
        };
        let over = thread_above(alloc, thread, rest.len())?;
        let least = match above.get(&over) {
            Some((_, least)) if *least < *index => *least,
            _ => *index,
        };
        above.insert(over, (*fork, least))?;
    }
    Ok(())
}

/// Adds the names of branches that went with a step.
fn add_names(
    names: &mut Vec<ThreadName>,
    closed: Result<Vec<(ThreadName, &Frame)>, AllocError>,
) -> Result<(), AllocError> {
    let closed = closed?;
    let added = add_copies_of(names, closed.as_slice());
    drop(closed);
    added
}

fn add_copies_of(
    names: &mut Vec<ThreadName>,
    closed: &[(ThreadName, &Frame)],
) -> Result<(), AllocError> {
    for (thread, _) in closed {
        names.push(thread.copy()?)?;
    }
    Ok(())
}

impl Touched {
    /// Adds the threads that the entry touched which came last. Those of steps that it took back are there already.
    pub(crate) fn add_entry<B: BookCalls>(
        &mut self,
        alloc: Global,
        book: &B,
        entry: &Entry,
    ) -> Result<(), AllocError> {
        match entry {
            Entry::Start { exec, .. } => self.moved.push(exec.copy()?)?,
            Entry::Step { name, kind } => self.add_taken(alloc, book, name, *kind)?,
            _ => {}
        }
        let ends = match entry {
            Entry::Undo { .. } | Entry::Rollback { .. } => Ends::AtLast,
            _ => Ends::AtFirstThatWaits,
        };
        self.add_around(alloc, book, ends)
    }

    fn add_taken<B: BookCalls>(
        &mut self,
        alloc: Global,
        book: &B,
        name: &StepName,
        kind: Kind,
    ) -> Result<(), AllocError> {
        self.moved.push(name.thread.copy()?)?;
        match kind {
            Kind::Fork => self.add_branches(alloc, book, name),
            Kind::Join | Kind::Terminate => self.add_closed(alloc, book, name),
            _ => Ok(()),
        }
    }

    /// The branches that a join or a terminate took away.
    fn add_closed<B: BookCalls>(
        &mut self,
        alloc: Global,
        book: &B,
        name: &StepName,
    ) -> Result<(), AllocError> {
        let records = book.history();
        match records.find(name) {
            Some(at) if at < records.len() => {
                add_names(&mut self.closed, closed_threads(alloc, records.get(at)))
            }
            _ => Ok(()),
        }
    }
}

/// The frame of a thread, if it has one. Takes no memory, and time logarithmic in the number of executions.
pub fn frame_of<'a, B: BookCalls>(book: &'a B, name: &ThreadName) -> Option<&'a Frame> {
    match book.show(name) {
        Ok(frame) => Some(frame),
        Err(_) => None,
    }
}

/// Over how many branches a frame is parked.
fn branches_of(frame: &Frame) -> u32 {
    match &frame.phase {
        Phase::Parked(branches, _) => *branches,
        _ => 0,
    }
}

/// Whether a thread waits for others.
pub fn is_waiting<B: BookCalls>(book: &B, name: &ThreadName) -> Result<bool, AllocError> {
    match book.ticket(name) {
        Ok(ticket) => {
            drop(ticket);
            Ok(false)
        }
        Err(Refusal::NotReady(Readiness::Waiting)) => Ok(true),
        Err(Refusal::Memory) => Err(AllocError),
        Err(_) => Ok(false),
    }
}
