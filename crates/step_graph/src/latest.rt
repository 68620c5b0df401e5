// The steps so far on which a next one may depend: the last of each thread, the latest of a fork's branches, and those that last touched each
// item.
use crate::branch_ends::BranchEnds;
use attr_values::Key;
use item_store::AccessMode;
use saved_steps::{Access, Fact, Kind};
use std::alloc::{AllocError, Global};
use std::collections::BTreeMap;
use std::mem;
use step_names::{NameFault, ThreadName};

/// A thread that has steps, or that has one with steps under it.
#[derive(Drop)]
struct Thread {
    /// The place of its last step; none if its steps are settled.
    last: Option<usize>,
    /// The number of the thread that forked it.
    above: Option<usize>,
    /// The numbers of the threads that it forked and has not closed.
    open: Vec<usize>,
    /// The latest steps under its last fork.
    ends: BranchEnds,
}

/// A step that touched an item: its place, and the number of its thread.
#[derive(Clone, Copy)]
struct Touch {
    place: usize,
    thread: usize,
}

/// What touched an item last.
#[derive(Drop)]
struct Touched {
    write: Option<Touch>,
    /// The reads since.
    reads: Vec<Touch>,
}

/// The last steps of all threads, and what touched each item last. Threads and items have numbers, in the order in which they came.
#[derive(Drop)]
pub(crate) struct Latest {
    names: BTreeMap<ThreadName, usize>,
    threads: Vec<Thread>,
    keys: BTreeMap<Key, usize>,
    items: Vec<Touched>,
}

impl Latest {
    /// No steps. Takes no memory.
    pub(crate) fn new(alloc: Global) -> Latest {
        Latest {
            names: BTreeMap::new(alloc),
            threads: Vec::new(alloc),
            keys: BTreeMap::new(alloc),
            items: Vec::new(alloc),
        }
    }

    /// Adds the step at a later place, and the places of the steps on which it depends to `near`, in ascending order; but for the latest one
    /// of the branches for which it waited, which is the answer. Takes time in the number of these and of the forks above it, and
    /// logarithmic in those of threads, branches and items; for a new thread that of its name too.
    pub(crate) fn add(
        &mut self,
        alloc: Global,
        fact: &Fact,
        at: usize,
        near: &mut Vec<usize>,
    ) -> Result<Option<usize>, AllocError> {
        let thread = self.thread(alloc, &fact.name.thread)?;
        self.add_before(thread, near)?;
        if matches!(fact.kind, Kind::Join | Kind::Terminate) {
            self.add_closed(alloc, thread, near)?;
        }
        if let Some(access) = &fact.access {
            self.add_touched(alloc, access, Touch { place: at, thread }, near)?;
        }
        self.set_last(thread, at);
        self.note_end(thread, fact.name.thread.path(), at)?;
        near.sort_unstable();
        Ok(self.awaited(thread, fact))
    }

    /// The step before in its thread; of the first one that remains, the last step of the thread that forked this one.
    fn add_before(&self, thread: usize, near: &mut Vec<usize>) -> Result<(), AllocError> {
        let own = self.last(Some(thread));
        let before = match own {
            Some(place) => Some(place),
            None => self.last(self.above(thread)),
        };
        push_some(near, before)
    }

    fn above(&self, thread: usize) -> Option<usize> {
        match self.threads.get(thread) {
            Some(thread) => thread.above,
            None => None,
        }
    }

    fn last(&self, thread: Option<usize>) -> Option<usize> {
        match self.threads.get(thread?) {
            Some(thread) => thread.last,
            None => None,
        }
    }

    fn set_last(&mut self, thread: usize, at: usize) {
        if thread < self.threads.len() {
            self.threads[thread].last = Some(at);
        }
    }

    /// The last step of each thread that is open under one. They are closed with it.
    fn add_closed(
        &mut self,
        alloc: Global,
        thread: usize,
        near: &mut Vec<usize>,
    ) -> Result<(), AllocError> {
        let mut open = self.take_open(alloc, thread);
        // each thread is open under one other, so there are no more of them
        for _ in 0..self.threads.len() {
            let Some(next) = open.pop() else {
                break;
            };
            push_some(near, self.last(Some(next)))?;
            let under = self.take_open(alloc, next);
            open.extend_from_slice(under.as_slice())?;
        }
        Ok(())
    }

    fn take_open(&mut self, alloc: Global, thread: usize) -> Vec<usize> {
        if thread < self.threads.len() {
            mem::replace(&mut self.threads[thread].open, Vec::new(alloc))
        } else {
            Vec::new(alloc)
        }
    }

    /// The latest step of the branches for which a first move waited; nothing of another step.
    fn awaited(&self, thread: usize, fact: &Fact) -> Option<usize> {
        let (fork, last) = awaited_branch(fact)?;
        let above = self.threads.get(self.above(thread)?)?;
        above.ends.latest(fork, last)
    }

    /// Notes a thread's step at each fork above it.
    fn note_end(
        &mut self,
        thread: usize,
        path: &[(u32, u32)],
        at: usize,
    ) -> Result<(), AllocError> {
        let mut below = thread;
        for (fork, branch) in path.iter().rev() {
            let Some(above) = self.above(below) else {
                break;
            };
            if above < self.threads.len() {
                self.threads[above].ends.note(*fork, *branch, at)?;
            }
            below = above;
        }
        Ok(())
    }

    /// The steps of other threads on which a call of this item depends.
    fn add_touched(
        &mut self,
        alloc: Global,
        access: &Access,
        own: Touch,
        near: &mut Vec<usize>,
    ) -> Result<(), AllocError> {
        let number = self.item(alloc, &access.key)?;
        if number >= self.items.len() {
            return Ok(());
        }
        let item = &mut self.items[number];
        if let Some(write) = item.write {
            push_other(near, write, own)?;
        }
        match access.mode {
            AccessMode::Read => {
                item.reads.push(own)?;
            }
            AccessMode::Write => {
                for read in &item.reads {
                    push_other(near, *read, own)?;
                }
                item.reads.clear();
                item.write = Some(own);
            }
        }
        Ok(())
    }

    // ---- numbers

    /// The number of a thread. One that is new gets the next, after those above it.
    fn thread(&mut self, alloc: Global, name: &ThreadName) -> Result<usize, AllocError> {
        if let Some(number) = self.names.get(name) {
            return Ok(*number);
        }
        let mut number = self.thread_under(alloc, None, thread_above(alloc, name, 0)?)?;
        for depth in 0..name.path().len() {
            let next = thread_above(alloc, name, depth + 1)?;
            number = self.thread_under(alloc, Some(number), next)?;
        }
        Ok(number)
    }

    fn thread_under(
        &mut self,
        alloc: Global,
        above: Option<usize>,
        name: ThreadName,
    ) -> Result<usize, AllocError> {
        if let Some(number) = self.names.get(&name) {
            return Ok(*number);
        }
        let number = self.threads.len();
        self.threads.push(Thread {
            last: None,
            above,
            open: Vec::new(alloc),
            ends: BranchEnds::new(alloc),
        })?;
        self.open_under(above, number)?;
        self.names.insert(name, number)?;
        Ok(number)
    }

    fn open_under(&mut self, above: Option<usize>, number: usize) -> Result<(), AllocError> {
        let Some(above) = above else {
            return Ok(());
        };
        if above < self.threads.len() {
            self.threads[above].open.push(number)?;
        }
        Ok(())
    }

    /// The number of an item.
    fn item(&mut self, alloc: Global, key: &Key) -> Result<usize, AllocError> {
        if let Some(number) = self.keys.get(key) {
            return Ok(*number);
        }
        let number = self.items.len();
        self.items.push(Touched {
            write: None,
            reads: Vec::new(alloc),
        })?;
        self.keys.insert(key.copy()?, number)?;
        Ok(number)
    }
}

fn push_some(near: &mut Vec<usize>, place: Option<usize>) -> Result<(), AllocError> {
    if let Some(place) = place {
        near.push(place)?;
    }
    Ok(())
}

/// A step of the same thread is told by the thread's own steps.
fn push_other(near: &mut Vec<usize>, touch: Touch, own: Touch) -> Result<(), AllocError> {
    if touch.thread != own.thread {
        near.push(touch.place)?;
    }
    Ok(())
}

/// Of a first move that waited under its Map's bound, the fork and the last branch for which it waited. It waited for those before it, too.
pub fn awaited_branch(fact: &Fact) -> Option<(u32, u32)> {
    if fact.bound == 0 {
        return None;
    }
    let ((fork, index), _) = fact.name.thread.path().split_last()?;
    let last = index.checked_sub(fact.bound)?;
    Some((*fork, last))
}

/// The thread to which the first so many branches of a name lead: one above it, or itself. Takes memory for a name at each depth.
pub fn thread_above(
    alloc: Global,
    name: &ThreadName,
    depth: usize,
) -> Result<ThreadName, AllocError> {
    let exec = name.exec_text()?;
    let Some(mut thread) = ThreadName::new(alloc, exec) else {
        // (an execution's name is one)
        return name.copy();
    };
    for branch in name.path().iter().take(depth) {
        let Some(next) = branch_of(alloc, &thread, branch.0, branch.1)? else {
            // (no branch of a name is refused)
            return Ok(thread);
        };
        thread = next;
    }
    Ok(thread)
}

/// The name of a branch of the fork that a thread's step of this number made; none where it would go past the bounds of names.
pub fn branch_of(
    alloc: Global,
    thread: &ThreadName,
    fork: u32,
    branch: u32,
) -> Result<Option<ThreadName>, AllocError> {
    match thread.child(alloc, fork, branch) {
        Ok(name) => Ok(Some(name)),
        Err(NameFault::BadName) => Ok(None),
        Err(NameFault::Memory) => Err(AllocError),
    }
}
