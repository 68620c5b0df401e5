// Executions: how each stands, and how many of each machine are done, failed or open.
use answer_causes::parts::books::{BookCalls, Entry, Phase};
use answer_causes::parts::{Asked, Object, Page, Rows, ThreadNames, frame_of, whole};
use json_tree::{Json, Text};
use std::alloc::{AllocError, Global};
use std::collections::BTreeMap;
use step_names::ThreadName;

/// How an execution stands, by its own thread.
#[derive(Clone, Copy, Debug, PartialEq, Eq)]
pub enum Status {
    Done,
    Failed,
    Open,
}

impl Status {
    pub(crate) fn word(self) -> &'static str {
        match self {
            Status::Done => "done",
            Status::Failed => "failed",
            Status::Open => "open",
        }
    }
}

/// Of which executions a list is.
#[derive(Debug, Drop)]
pub struct Filter {
    pub status: Option<Status>,
    pub machine: Option<Text>,
    pub since: Option<usize>,
}

#[derive(Clone, Copy)]
struct Count {
    done: usize,
    failed: usize,
    open: usize,
}

impl Count {
    fn none() -> Count {
        Count {
            done: 0,
            failed: 0,
            open: 0,
        }
    }

    fn with(self, status: Status) -> Count {
        let mut count = self;
        match status {
            Status::Done => count.done = count.done.saturating_add(1),
            Status::Failed => count.failed = count.failed.saturating_add(1),
            Status::Open => count.open = count.open.saturating_add(1),
        }
        count
    }

    fn value(self, alloc: Global) -> Result<Json, AllocError> {
        let mut fields = Object::new(alloc);
        fields.put_number("done", self.done);
        fields.put_number("failed", self.failed);
        fields.put_number("open", self.open);
        fields.done()
    }
}

/// The executions, and how many there are. Takes time in the number of executions and in the steps of those that are listed.
pub(crate) fn executions<B: BookCalls>(
    asked: &Asked<'_, B>,
    filter: &Filter,
    page: &Page<ThreadName>,
) -> Result<Json, AllocError> {
    let mut rows = Rows::new(asked.alloc);
    let more = push_listed(asked, filter, page, &mut rows);
    let mut answer = asked.answer();
    put_counts(asked, &mut answer);
    answer.put("held", hold_of(asked));
    answer.put_whether("more", Ok(more));
    if let Some(since) = filter.since {
        answer.put("gone", gone_since(asked, since));
    }
    answer.put_list("executions", rows);
    answer.done()
}

/// The executions of a page, and whether more follow.
fn push_listed<B: BookCalls>(
    asked: &Asked<'_, B>,
    filter: &Filter,
    page: &Page<ThreadName>,
    rows: &mut Rows,
) -> bool {
    for (exec, start) in asked.index.executions().iter() {
        if page.skips(exec) || !is_listed(asked, filter, exec, *start) {
            continue;
        }
        if page.is_full(rows.len()) {
            return true;
        }
        rows.push(row_of(asked, exec, *start));
    }
    false
}

/// What a list answers before there is a table.
pub(crate) fn put_none(alloc: Global, answer: &mut Object, filter: &Filter) {
    answer.put("counts", Count::none().value(alloc));
    answer.put("machines", Object::new(alloc).done());
    answer.put_null("held");
    if filter.since.is_some() {
        answer.put_list("gone", Rows::new(alloc));
    }
    answer.put_list("executions", Rows::new(alloc));
}

type Counts = BTreeMap<Text, Count>;

/// How many executions are done, failed and open: of all, and of each machine.
fn put_counts<B: BookCalls>(asked: &Asked<'_, B>, answer: &mut Object) {
    let mut by_machine = BTreeMap::new(asked.alloc);
    match add_machines(asked, &mut by_machine) {
        Ok(()) => {
            answer.put(
                "counts",
                count_all(asked, &mut by_machine).value(asked.alloc),
            );
            answer.put("machines", counts_value(asked.alloc, &by_machine));
        }
        Err(AllocError) => answer.refuse(),
    }
    drop(by_machine);
}

fn add_machines<B: BookCalls>(
    asked: &Asked<'_, B>,
    by_machine: &mut Counts,
) -> Result<(), AllocError> {
    for (name, _) in asked.index.definitions().iter() {
        by_machine.insert(name.copy()?, Count::none())?;
    }
    Ok(())
}

fn count_all<B: BookCalls>(asked: &Asked<'_, B>, by_machine: &mut Counts) -> Count {
    let mut all = Count::none();
    for (exec, start) in asked.index.executions().iter() {
        let status = status_of(asked, exec);
        all = all.with(status);
        if let Some(machine) = machine_of(asked, *start) {
            if let Some(count) = by_machine.get_mut(machine) {
                *count = count.with(status);
            }
        }
    }
    all
}

fn counts_value(alloc: Global, by_machine: &Counts) -> Result<Json, AllocError> {
    let mut machines = Object::new(alloc);
    for (name, count) in by_machine.iter() {
        machines.put(name.as_str(), count.value(alloc));
    }
    machines.done()
}

/// What is held, and what is left of it, the latest first.
fn hold_of<B: BookCalls>(asked: &Asked<'_, B>) -> Result<Json, AllocError> {
    let Some(step) = asked.book.held() else {
        return Ok(Json::Null);
    };
    let mut held = Object::new(asked.alloc);
    held.put_step("step", step);
    held.put_number("left", asked.book.held_left());
    held.done()
}

/// The executions that are gone, and went by a line after one.
fn gone_since<B: BookCalls>(asked: &Asked<'_, B>, since: usize) -> Result<Json, AllocError> {
    let mut gone = ThreadNames::new(asked.alloc);
    for (_, threads) in asked.index.changes().range(since.saturating_add(1)..) {
        for thread in threads {
            if thread.is_execution() && asked.index.gone_by(thread).is_some() {
                gone.add(thread);
            }
        }
    }
    gone.done()
}

fn is_listed<B: BookCalls>(
    asked: &Asked<'_, B>,
    filter: &Filter,
    exec: &ThreadName,
    start: usize,
) -> bool {
    if let Some(status) = filter.status {
        if status_of(asked, exec) != status {
            return false;
        }
    }
    if let Some(since) = filter.since {
        if last_line(asked, exec, start) <= since {
            return false;
        }
    }
    match (&filter.machine, machine_of(asked, start)) {
        (Some(wanted), Some(machine)) => wanted.as_str() == machine.as_str(),
        (Some(_), None) => false,
        (None, _) => true,
    }
}

// ---- of one execution

/// How an execution stands.
pub(crate) fn status_of<B: BookCalls>(asked: &Asked<'_, B>, exec: &ThreadName) -> Status {
    match frame_of(asked.book, exec) {
        Some(frame) => match &frame.phase {
            Phase::Done(_) => Status::Done,
            Phase::Failed(_) => Status::Failed,
            _ => Status::Open,
        },
        None => Status::Open,
    }
}

/// The machine of an execution that was started by a line.
fn machine_of<'a, B: BookCalls>(asked: &Asked<'a, B>, start: usize) -> Option<&'a Text> {
    let (_, entries) = asked.book.entries();
    // (the table's line is no entry)
    match entries.get(start.checked_sub(1)?) {
        Some(Entry::Start { machine, .. }) => Some(machine),
        _ => None,
    }
}

/// The last line that changed an execution's threads.
fn last_line<B: BookCalls>(asked: &Asked<'_, B>, exec: &ThreadName, start: usize) -> usize {
    let mut last = start;
    for (thread, presence) in asked.index.threads().range(exec..) {
        if thread.exec() != exec.exec() {
            break;
        }
        if presence.changed > last {
            last = presence.changed;
        }
    }
    last
}

fn row_of<B: BookCalls>(
    asked: &Asked<'_, B>,
    exec: &ThreadName,
    start: usize,
) -> Result<Json, AllocError> {
    let mut row = Object::new(asked.alloc);
    row.put_thread("execution", exec);
    row.put_word("machine", machine_word(asked, start));
    row.put_text("status", status_of(asked, exec).word());
    put_end(asked, &mut row, exec);
    row.put("steps", steps_of(asked, exec));
    row.put_number("entry", last_line(asked, exec, start));
    row.done()
}

/// The name of the machine of an execution that was started by a line.
pub(crate) fn machine_word<'a, B: BookCalls>(
    asked: &Asked<'a, B>,
    start: usize,
) -> Option<&'a str> {
    match machine_of(asked, start) {
        Some(machine) => Some(machine.as_str()),
        None => None,
    }
}

/// How many steps of an execution remain.
fn steps_of<B: BookCalls>(asked: &Asked<'_, B>, exec: &ThreadName) -> Result<Json, AllocError> {
    let steps = asked.book.history().of_execution(asked.alloc, exec.exec())?;
    let count = steps.len();
    drop(steps);
    Ok(whole(count))
}

/// The state in which an execution is or failed, and its error.
pub(crate) fn put_end<B: BookCalls>(asked: &Asked<'_, B>, row: &mut Object, exec: &ThreadName) {
    let Some(frame) = frame_of(asked.book, exec) else {
        row.put_null("state");
        row.put_null("error");
        return;
    };
    match &frame.phase {
        Phase::Done(_) => {
            row.put_null("state");
            row.put_null("error");
        }
        Phase::Failed(fault) => {
            row.put_text("state", frame.state.as_str());
            row.put_text("error", fault.error.as_str());
        }
        _ => {
            row.put_text("state", frame.state.as_str());
            row.put_null("error");
        }
    }
}
