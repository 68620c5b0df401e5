// The calls of a book that many callers may share, as `Book` has them.
use crate::book::Book;
use book_events::{CommitRefusal, Events, PlanRoom, Room, Ticket};
use book_log::{Begin, Entry, Moved, Refusal, StepNames};
use json_tree::{Json, Text};
use std::alloc::Global;
use std::collections::BTreeSet;
use step_history::turns::{Frame, Prepared};
use step_names::{StepName, ThreadName};

impl Events for Book {
    ghost log = { λ b. b.log };

    fn start(
        &mut self,
        alloc: Global,
        exec: &ThreadName,
        machine: &Text,
        input: Json,
    ) -> Result<StepName, Refusal> {
        Book::start(self, alloc, exec, machine, input)
    }

    fn step(&mut self, alloc: Global, thread: &ThreadName) -> Result<Moved, Refusal> {
        Book::step(self, alloc, thread)
    }

    fn commit(
        &mut self,
        alloc: Global,
        thread: &ThreadName,
        prepared: Prepared,
    ) -> Result<Moved, CommitRefusal> {
        Book::commit(self, alloc, thread, prepared)
    }

    fn hold(&mut self, alloc: Global, step: &StepName) -> Result<usize, Refusal> {
        Book::hold(self, alloc, step)
    }

    fn held(&self) -> Option<&StepName> {
        Book::held(self)
    }

    fn held_left(&self) -> usize {
        Book::held_left(self)
    }

    fn last_left(&self) -> Option<&StepName> {
        Book::last_left(self)
    }

    fn room(&self, alloc: Global, step: &StepName) -> Result<Room, Refusal> {
        Book::room(self, alloc, step)
    }

    fn undo(&mut self, room: Room) -> Result<StepName, Refusal> {
        Book::undo(self, room)
    }

    fn plan_room(&self, alloc: Global, step: &StepName) -> Result<PlanRoom, Refusal> {
        Book::plan_room(self, alloc, step)
    }

    fn rollback(&mut self, room: PlanRoom) -> Result<StepNames, Refusal> {
        Book::rollback(self, room)
    }

    fn first_ready(
        &self,
        alloc: Global,
        outside: &BTreeSet<ThreadName>,
    ) -> Result<Option<ThreadName>, Refusal> {
        Book::first_ready(self, alloc, outside)
    }

    fn first_ready_from(
        &self,
        alloc: Global,
        from: &String,
        path: &[(u32, u32)],
        outside: &BTreeSet<ThreadName>,
    ) -> Result<Option<ThreadName>, Refusal> {
        Book::first_ready_from(self, alloc, from, path, outside)
    }

    fn ticket(&self, thread: &ThreadName) -> Result<Ticket, Refusal> {
        Book::ticket(self, thread)
    }

    fn show(&self, thread: &ThreadName) -> Result<&Frame, Refusal> {
        Book::show(self, thread)
    }

    fn entries(&self) -> (&Begin, &[Entry]) {
        Book::entries(self)
    }
}
