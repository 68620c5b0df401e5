// Which accepted line brought what about.
use crate::definitions::{Definition, Definitions, keep};
use crate::touched::{Touched, frame_of};
use book_events::{BookCalls, Entry};
use command_lines::{Command, CommandFault};
use json_tree::Text;
use std::alloc::{AllocError, Global};
use std::collections::BTreeMap;
use step_names::{StepName, ThreadName};

/// Since which accepted lines a thread is as it is.
#[derive(Clone, Copy, Debug, PartialEq, Eq)]
pub struct Presence {
    /// The line that brought it to where it is: its start, its step, the fork of its branch, or what put it back.
    pub brought: usize,
    /// The last line that changed this or its next move.
    pub changed: usize,
}

/// Which accepted line brought what about. The lines have numbers in their order; that of the table is 0. Each line costs time and
/// memory in the number of threads that it touches, logarithms aside.
#[derive(Drop)]
pub struct Index {
    lines: usize,
    definitions: Definitions,
    /// The line of each execution's start.
    executions: BTreeMap<ThreadName, usize>,
    /// The line of each step that remains.
    steps: BTreeMap<StepName, usize>,
    threads: BTreeMap<ThreadName, Presence>,
    /// The line by which a thread went that isn't there.
    gone: BTreeMap<ThreadName, usize>,
    /// The threads that each line touched.
    changes: BTreeMap<usize, Vec<ThreadName>>,
    /// The branches that went with the join or the terminate of a line.
    closed: BTreeMap<usize, Vec<ThreadName>>,
}

impl Index {
    /// No lines. Takes no memory.
    pub fn new(alloc: Global) -> Index {
        Index {
            lines: 0,
            definitions: BTreeMap::new(alloc),
            executions: BTreeMap::new(alloc),
            steps: BTreeMap::new(alloc),
            threads: BTreeMap::new(alloc),
            gone: BTreeMap::new(alloc),
            changes: BTreeMap::new(alloc),
            closed: BTreeMap::new(alloc),
        }
    }

    /// How many lines were accepted, the table's too.
    pub fn lines(&self) -> usize {
        self.lines
    }

    /// The definitions of the machines, by their names.
    pub fn definitions(&self) -> &BTreeMap<Text, Definition> {
        &self.definitions
    }

    /// The executions that are there, each with the line of its start.
    pub fn executions(&self) -> &BTreeMap<ThreadName, usize> {
        &self.executions
    }

    /// The threads that are there.
    pub fn threads(&self) -> &BTreeMap<ThreadName, Presence> {
        &self.threads
    }

    /// The line of a step that remains.
    pub fn line_of(&self, step: &StepName) -> Option<usize> {
        self.steps.get(step).copied()
    }

    /// The line by which a thread went that isn't there.
    pub fn gone_by(&self, thread: &ThreadName) -> Option<usize> {
        self.gone.get(thread).copied()
    }

    /// The threads that lines touched, by these lines.
    pub fn changes(&self) -> &BTreeMap<usize, Vec<ThreadName>> {
        &self.changes
    }

    /// The branches that went with the join or the terminate of a line.
    pub fn closed_by(&self, line: usize) -> &[ThreadName] {
        match self.closed.get(&line) {
            Some(threads) => threads.as_slice(),
            None => &[],
        }
    }

    // ---- lines

    /// Enters the line that was accepted last. `touched` is what `Touched::before` found before it was.
    pub fn enter<B: BookCalls>(
        &mut self,
        alloc: Global,
        book: &B,
        line: &str,
        touched: Touched,
    ) -> Result<(), AllocError> {
        let number = self.lines;
        self.lines = number.saturating_add(1);
        let mut touched = touched;
        let entered = self.enter_last(alloc, book, line, number, &mut touched);
        drop(touched);
        entered
    }

    /// Enters the line of the last entry.
    fn enter_last<B: BookCalls>(
        &mut self,
        alloc: Global,
        book: &B,
        line: &str,
        number: usize,
        touched: &mut Touched,
    ) -> Result<(), AllocError> {
        let (_, entries) = book.entries();
        let Some(entry) = entries.last() else {
            return Ok(());
        };
        self.enter_name(alloc, line, entry, number)?;
        touched.add_entry(alloc, book, entry)?;
        self.close(alloc, number, touched)?;
        self.place(alloc, book, number, touched)
    }

    /// What a line says of machines, executions and steps.
    fn enter_name(
        &mut self,
        alloc: Global,
        line: &str,
        entry: &Entry,
        number: usize,
    ) -> Result<(), AllocError> {
        match entry {
            Entry::Define { .. } => self.define(alloc, line, number),
            Entry::Start { exec, .. } => {
                self.executions.insert(exec.copy()?, number)?;
                let step = StepName {
                    thread: exec.copy()?,
                    no: 0,
                };
                self.steps.insert(step, number)?;
                Ok(())
            }
            Entry::Step { name, .. } => {
                self.steps.insert(name.copy()?, number)?;
                Ok(())
            }
            Entry::Undo { step } => {
                self.take_back(step);
                Ok(())
            }
            Entry::Rollback { undone, .. } => {
                for step in undone.names() {
                    self.take_back(step);
                }
                Ok(())
            }
            Entry::Settle => {
                self.steps = BTreeMap::new(alloc);
                Ok(())
            }
            Entry::Hold { .. } => Ok(()),
        }
    }

    fn define(&mut self, alloc: Global, line: &str, number: usize) -> Result<(), AllocError> {
        match Command::read_text(alloc, line) {
            Ok(Command::Define { name, definition }) => {
                keep(alloc, &mut self.definitions, &name, definition, number)
            }
            Ok(_) | Err(CommandFault::BadLine) => Ok(()),
            Err(CommandFault::Memory) => Err(AllocError),
        }
    }

    fn take_back(&mut self, step: &StepName) {
        self.steps.remove(step);
        if step.no == 0 {
            self.executions.remove(&step.thread);
        }
    }

    /// Keeps the branches that went.
    fn close(&mut self, alloc: Global, number: usize, touched: &Touched) -> Result<(), AllocError> {
        if touched.closed.is_empty() {
            return Ok(());
        }
        let mut closed = Vec::new(alloc);
        let Ok(()) = add_copies(&mut closed, touched.closed.as_slice()) else {
            drop(closed);
            return Err(AllocError);
        };
        self.closed.insert(number, closed)?;
        Ok(())
    }

    /// Notes where the threads are that a line touched.
    fn place<B: BookCalls>(
        &mut self,
        alloc: Global,
        book: &B,
        number: usize,
        touched: &Touched,
    ) -> Result<(), AllocError> {
        for thread in &touched.moved {
            self.note(book, number, thread, true)?;
        }
        for thread in &touched.closed {
            self.note(book, number, thread, true)?;
        }
        for thread in &touched.beside {
            self.note(book, number, thread, false)?;
        }
        let mut changed = Vec::new(alloc);
        let Ok(()) = add_touched(&mut changed, touched) else {
            drop(changed);
            return Err(AllocError);
        };
        self.changes.insert(number, changed)?;
        Ok(())
    }

    /// Notes where a thread is.
    fn note<B: BookCalls>(
        &mut self,
        book: &B,
        number: usize,
        thread: &ThreadName,
        is_moved: bool,
    ) -> Result<(), AllocError> {
        if frame_of(book, thread).is_none() {
            self.threads.remove(thread);
            self.gone.insert(thread.copy()?, number)?;
            return Ok(());
        }
        let brought = match self.threads.get(thread) {
            Some(before) if !is_moved || before.changed == number => before.brought,
            _ => number,
        };
        let presence = Presence {
            brought: if is_moved { number } else { brought },
            changed: number,
        };
        self.gone.remove(thread);
        self.threads.insert(thread.copy()?, presence)?;
        Ok(())
    }
}

/// Adds all threads that a line touches.
fn add_touched(names: &mut Vec<ThreadName>, touched: &Touched) -> Result<(), AllocError> {
    add_copies(names, touched.moved.as_slice())?;
    add_copies(names, touched.closed.as_slice())?;
    add_copies(names, touched.beside.as_slice())
}

fn add_copies(names: &mut Vec<ThreadName>, threads: &[ThreadName]) -> Result<(), AllocError> {
    for thread in threads {
        names.push(thread.copy()?)?;
    }
    Ok(())
}
