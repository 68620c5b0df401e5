//! What a book is asked by no line, and what it answers, by rows that were worked out by hand from the machines' definitions.
use attr_values::{KeyAttribute, KeySchema, KeyType, write_item};
use json_tree::{Json, JsonList, Text, depth, read, write_text};
use rollback_book::{Begin, Book, Refusal};
use serde_json::Value;
use std::alloc::{AllocError, Global};
use std::collections::BTreeSet;
use std::process::Abort;
use std::test::Fail;
use step_names::{StepName, ThreadName};

pub(crate) const PASS: &str =
    r#"{"StartAt":"P","States":{"P":{"Type":"Pass","Result":7,"End":true}}}"#;

pub(crate) const PUT: &str =
    r#"{"StartAt":"W","States":{"W":{"Type":"Task","Resource":"arn:aws:states:::dynamodb:putItem","Parameters":{"TableName":"items","Item":{"id":{"S":"k"},"v":{"S.$":"$.v"}}},"End":true}}}"#;

const GET: &str =
    r#"{"StartAt":"G","States":{"G":{"Type":"Task","Resource":"arn:aws:states:::dynamodb:getItem","Parameters":{"TableName":"items","Key":{"id":{"S":"k"}}},"End":true}}}"#;

/// Two branches of two moves each.
pub(crate) const TWO_BRANCHES: &str =
    r#"{"StartAt":"S","States":{"S":{"Type":"Parallel","Branches":[{"StartAt":"A","States":{"A":{"Type":"Pass","Next":"B"},"B":{"Type":"Pass","End":true}}},{"StartAt":"C","States":{"C":{"Type":"Pass","Next":"D"},"D":{"Type":"Pass","End":true}}}],"End":true}}}"#;

const OLD: &str = r#"[{"id":{"S":"k"},"v":{"S":"old"}}]"#;

// ---- a book to begin with

fn key_schema(alloc: Global) -> Result<KeySchema, AllocError> {
    let name = Text::new(alloc, "id")?;
    let partition = KeyAttribute {
        name,
        kind: KeyType::S,
    };
    Ok(KeySchema {
        partition,
        sort: None,
    })
}

fn begin(alloc: Global, items: JsonList) -> Result<Begin, AllocError> {
    let (Ok(table), Ok(schema)) = (Text::new(alloc, "items"), key_schema(alloc)) else {
        drop(items);
        return Err(AllocError);
    };
    Ok(Begin {
        table,
        schema,
        items,
    })
}

/// A book over these items, whose keys have one attribute, `id`.
pub(crate) fn book_over(alloc: Global, items: &str) -> Result<Book, Fail> {
    match read(alloc, items.as_bytes())? {
        Json::List(items) => Ok(Book::open(alloc, begin(alloc, items)?)?),
        _ => Err("no list of items".into()),
    }
}

// ---- acts

/// What is asked of a book. Names and texts are as lines spell them.
#[derive(Clone, Copy)]
pub(crate) enum Act {
    Define(&'static str, &'static str),
    Start(&'static str, &'static str, &'static str),
    Step(&'static str),
    Undo(&'static str),
    CanUndo(&'static str),
    UndoOrder(&'static [&'static str]),
    Rerun(&'static [&'static str]),
    /// A rollback of the first step that is planned before the second one is undone.
    LateRollback(&'static str, &'static str),
    Settle,
    Hold(&'static str),
    /// The held step, the latest that is left, and how many are left.
    Left,
}

fn thread_of(alloc: Global, name: &str) -> Result<ThreadName, Refusal> {
    match ThreadName::read(alloc, name) {
        Ok(thread) => Ok(thread),
        Err(_fault) => Err(Refusal::Memory),
    }
}

fn step_of(alloc: Global, name: &str) -> Result<StepName, Refusal> {
    match StepName::read(alloc, name) {
        Ok(step) => Ok(step),
        Err(_fault) => Err(Refusal::Memory),
    }
}

pub(crate) fn steps_of(alloc: Global, names: &[&str]) -> Result<Vec<StepName>, Refusal> {
    let mut steps = Vec::new(alloc);
    for name in names {
        steps.push(step_of(alloc, name)?)?;
    }
    Ok(steps)
}

fn define(alloc: Global, book: &mut Book, name: &str, text: &str) -> Result<(), Refusal> {
    let Ok(definition) = Value::from_str(alloc, text) else {
        return Err(Refusal::Memory);
    };
    define_as(alloc, book, name, &definition)
}

fn define_as(
    alloc: Global,
    book: &mut Book,
    name: &str,
    definition: &Value,
) -> Result<(), Refusal> {
    let name = Text::new(alloc, name)?;
    book.define(alloc, &name, definition)
}

fn start(
    alloc: Global,
    book: &mut Book,
    exec: &str,
    machine: &str,
    input: &str,
) -> Result<(), Refusal> {
    let exec = thread_of(alloc, exec)?;
    start_as(alloc, book, &exec, machine, input)
}

fn start_as(
    alloc: Global,
    book: &mut Book,
    exec: &ThreadName,
    machine: &str,
    input: &str,
) -> Result<(), Refusal> {
    let machine = Text::new(alloc, machine)?;
    match read(alloc, input.as_bytes()) {
        Ok(input) => start_with(alloc, book, exec, &machine, input),
        Err(_fault) => Err(Refusal::Memory),
    }
}

fn start_with(
    alloc: Global,
    book: &mut Book,
    exec: &ThreadName,
    machine: &Text,
    input: Json,
) -> Result<(), Refusal> {
    if !exec.is_execution() || depth(&input) > 127 {
        drop(input);
        return Err(Refusal::NoThread);
    }
    drop(book.start(alloc, exec, machine, input)?);
    Ok(())
}

fn step(alloc: Global, book: &mut Book, name: &str) -> Result<(), Refusal> {
    let thread = thread_of(alloc, name)?;
    drop(book.step(alloc, &thread)?);
    Ok(())
}

fn undo(alloc: Global, book: &mut Book, name: &str) -> Result<(), Refusal> {
    let step = step_of(alloc, name)?;
    let room = book.room(alloc, &step)?;
    drop(book.undo(room)?);
    Ok(())
}

fn can_undo(alloc: Global, book: &Book, name: &str) -> Result<(), Refusal> {
    let step = step_of(alloc, name)?;
    let room = book.room(alloc, &step)?;
    drop(book.can_undo(room)?);
    Ok(())
}

fn undo_order(alloc: Global, book: &mut Book, names: &[&str]) -> Result<(), Refusal> {
    let steps = steps_of(alloc, names)?;
    book.undo_order(alloc, steps.as_slice())
}

fn roll_back_late(alloc: Global, book: &mut Book, name: &str, other: &str) -> Result<(), Refusal> {
    let step = step_of(alloc, name)?;
    let other = step_of(alloc, other)?;
    undo_and_roll_back(alloc, book, &step, &other)
}

fn undo_and_roll_back(
    alloc: Global,
    book: &mut Book,
    step: &StepName,
    other: &StepName,
) -> Result<(), Refusal> {
    let room = book.room(alloc, other)?;
    let plan = match book.plan_room(alloc, step) {
        Ok(plan) => plan,
        Err(refusal) => {
            drop(room);
            return Err(refusal);
        }
    };
    drop(book.undo(room));
    drop(book.rollback(plan)?);
    Ok(())
}

fn hold(alloc: Global, book: &mut Book, name: &str) -> Result<(), Refusal> {
    let step = step_of(alloc, name)?;
    book.hold(alloc, &step)?;
    Ok(())
}

fn put_name(alloc: Global, name: Option<&StepName>, text: &mut String) -> Result<(), AllocError> {
    if let Some(name) = name {
        text.push_str(name.write_text(alloc)?.as_str())?;
        text.push(' ')?;
    }
    Ok(())
}

fn is_left(alloc: Global, book: &Book, want: &str) -> Result<bool, AllocError> {
    let mut text = String::new(alloc);
    put_name(alloc, book.held(), &mut text)?;
    put_name(alloc, book.last_left(), &mut text)?;
    let count = book.held_left();
    text.push_str(format!(in alloc; "{count}")?.as_str())?;
    Ok(text.as_str() == want)
}

/// Whether a rerun of these steps is refused so, or shows this.
fn rerun(alloc: Global, book: &Book, names: &[&str], want: &str) -> Result<bool, AllocError> {
    match rerun_of(alloc, book, names) {
        Ok(again) => {
            let listed = listed(alloc, &again);
            drop(again);
            Ok(listed?.as_str() == want)
        }
        Err(refusal) => is_refused(alloc, &refusal, want),
    }
}

pub(crate) fn rerun_of(alloc: Global, book: &Book, names: &[&str]) -> Result<Book, Refusal> {
    let steps = steps_of(alloc, names)?;
    let again = book.rerun(alloc, steps.as_slice());
    drop(steps);
    again
}

/// Whether that is the refusal; for want of memory an error.
fn is_refused(alloc: Global, refusal: &Refusal, want: &str) -> Result<bool, AllocError> {
    match refusal {
        Refusal::Memory => Err(AllocError),
        Refusal::NoStep => Ok(want == "no step"),
        Refusal::Settled => Ok(want == "settled"),
        Refusal::ExecTaken => Ok(want == "taken"),
        Refusal::Stale(entries) => Ok(*entries == 7 && want == "stale at 7"),
        Refusal::Held(name) => {
            let name = name.write_text(alloc)?;
            Ok(want.strip_prefix("held by ") == Some(name.as_str()))
        }
        Refusal::HasDependents(name) => {
            let name = name.write_text(alloc)?;
            Ok(want.strip_prefix("needed by ") == Some(name.as_str()))
        }
        _ => Ok(want == "refused"),
    }
}

fn is_told(alloc: Global, told: Result<(), Refusal>, want: &str) -> Result<bool, AllocError> {
    match told {
        Ok(()) => Ok(want == "ok"),
        Err(refusal) => {
            let is_so = is_refused(alloc, &refusal, want);
            drop(refusal);
            is_so
        }
    }
}

/// Whether it is answered so. An error is want of memory, before anything is changed.
pub(crate) fn is_answered(
    alloc: Global,
    book: &mut Book,
    act: Act,
    want: &str,
) -> Result<bool, AllocError> {
    let told = match act {
        Act::Define(name, text) => define(alloc, book, name, text),
        Act::Start(exec, machine, input) => start(alloc, book, exec, machine, input),
        Act::Step(thread) => step(alloc, book, thread),
        Act::Undo(name) => undo(alloc, book, name),
        Act::CanUndo(name) => can_undo(alloc, book, name),
        Act::UndoOrder(names) => undo_order(alloc, book, names),
        Act::LateRollback(name, other) => roll_back_late(alloc, book, name, other),
        Act::Settle => book.settle(alloc),
        Act::Hold(name) => hold(alloc, book, name),
        Act::Left => return is_left(alloc, book, want),
        Act::Rerun(names) => return rerun(alloc, book, names, want),
    };
    is_told(alloc, told, want)
}

// ---- what a book shows

fn put_items(alloc: Global, book: &Book, text: &mut String) -> Result<(), AllocError> {
    for item in book.items() {
        let json = write_item(item)?;
        text.push_str(write_text(alloc, &json)?.as_str())?;
    }
    Ok(())
}

fn put_names(alloc: Global, book: &Book, text: &mut String) -> Result<(), AllocError> {
    let steps = book.history();
    for place in 0..steps.len() {
        text.push_str(steps.get(place).fact.name.write_text(alloc)?.as_str())?;
        text.push(' ')?;
    }
    Ok(())
}

/// The names of the remaining steps, and the items.
pub(crate) fn listed(alloc: Global, book: &Book) -> Result<String, AllocError> {
    let mut text = String::new(alloc);
    put_names(alloc, book, &mut text)?;
    put_items(alloc, book, &mut text)?;
    Ok(text)
}

/// Each thread of the rows.
const THREADS: &[&str] = &["a", "b", "e", "e/1.0", "e/1.1"];

fn put_frame(
    alloc: Global,
    book: &Book,
    thread: &ThreadName,
    text: &mut String,
) -> Result<(), AllocError> {
    if let Ok(frame) = book.show(thread) {
        let frame = format!(in alloc; " {frame:?}")?;
        text.push_str(frame.as_str())?;
    }
    Ok(())
}

/// The items and the frames.
pub(crate) fn world(alloc: Global, book: &Book) -> Result<String, Fail> {
    let mut text = String::new(alloc);
    put_items(alloc, book, &mut text)?;
    for name in THREADS {
        let thread = ThreadName::read(alloc, name)?;
        put_frame(alloc, book, &thread, &mut text)?;
    }
    Ok(text)
}

/// The names, the items and the frames.
pub(crate) fn shown(alloc: Global, book: &Book) -> Result<String, Fail> {
    let mut text = listed(alloc, book)?;
    text.push_str(world(alloc, book)?.as_str())?;
    Ok(text)
}

// ---- rows

/// What is asked, and what is answered.
pub(crate) type Row = (Act, &'static str);

/// Asks, and once more where memory is refused, which changes nothing.
fn asks(alloc: Global, book: &mut Book, row: &Row, before: &str) -> Result<bool, Fail> {
    if let Ok(is_so) = is_answered(alloc, book, row.0, row.1) {
        return Ok(is_so);
    }
    if shown(alloc, book)?.as_str() != before {
        return Ok(false);
    }
    Ok(is_answered(alloc, book, row.0, row.1)?)
}

/// Whether this act, answered so, changes what the book shows. Before a late rollback it is the undoing that does.
fn may_change(row: &Row) -> bool {
    match row.0 {
        Act::CanUndo(_) | Act::Rerun(_) => false,
        Act::LateRollback(_, _) => true,
        _ => row.1 == "ok",
    }
}

/// Whether it is answered so, and a refusal or a question changes nothing.
fn holds(alloc: Global, book: &mut Book, row: &Row) -> Result<bool, Fail> {
    let before = shown(alloc, book)?;
    if !asks(alloc, book, row, before.as_str())? {
        return Ok(false);
    }
    Ok(may_change(row) || shown(alloc, book)? == before)
}

pub(crate) fn expect(
    rt: &impl Abort,
    alloc: Global,
    book: &mut Book,
    rows: &[Row],
) -> Result<(), Fail> {
    for (i, row) in rows.iter().enumerate() {
        assert!(rt; holds(alloc, book, row)?, "row {i}");
    }
    Ok(())
}

pub(crate) fn expect_over(
    rt: &impl Abort,
    alloc: Global,
    items: &str,
    rows: &[Row],
) -> Result<(), Fail> {
    let mut book = book_over(alloc, items)?;
    let told = expect(rt, alloc, &mut book, rows);
    drop(book);
    told
}

#[test]
fn questions_change_nothing(rt: HostRuntime) -> Result<(), Fail> {
    expect_over(&rt, rt.alloc(), "[]", QUESTIONS)
}

const QUESTIONS: &[Row] = &[
    (Act::Define("p", PASS), "ok"),
    (Act::Start("a", "p", "{}"), "ok"),
    (Act::Step("a"), "ok"),
    (Act::CanUndo("a#0"), "needed by a#1"),
    (Act::CanUndo("a#1"), "ok"),
    (Act::CanUndo("b#1"), "no step"),
    (Act::Undo("a#1"), "ok"),
    (Act::CanUndo("a#1"), "no step"),
];

/// The later write goes with the earlier one; a book in which only the earlier one was made has its item.
const RERUNS_OF_A_PUT: &[Row] = &[
    (Act::Define("w", PUT), "ok"),
    (Act::Start("a", "w", r#"{"v":"1"}"#), "ok"),
    (Act::Start("b", "w", r#"{"v":"2"}"#), "ok"),
    (Act::Step("a"), "ok"),
    (Act::Step("b"), "ok"),
    (
        Act::Rerun(&["a#0", "b#0", "a#1", "b#1"]),
        r#"a#0 b#0 a#1 b#1 {"id":{"S":"k"},"v":{"S":"2"}}"#,
    ),
    (
        Act::Rerun(&["a#0", "b#0", "a#1"]),
        r#"a#0 b#0 a#1 {"id":{"S":"k"},"v":{"S":"1"}}"#,
    ),
    (
        Act::Rerun(&["b#0", "b#1", "a#0", "a#1"]),
        r#"b#0 b#1 a#0 a#1 {"id":{"S":"k"},"v":{"S":"1"}}"#,
    ),
    (Act::Rerun(&[]), ""),
    // not the next of its thread
    (Act::Rerun(&["a#1", "a#0", "b#0"]), "no step"),
    // taken before
    (Act::Rerun(&["a#0", "a#0"]), "no step"),
    // not among the remaining ones
    (Act::Rerun(&["a#0", "c#0"]), "no step"),
    (Act::Rerun(&["a#0", "a#2"]), "no step"),
    (Act::UndoOrder(&["b#1", "a#1"]), "ok"),
    (Act::Rerun(&["b#0", "a#0"]), "b#0 a#0 "),
    (Act::Rerun(&["b#0", "b#1"]), "no step"),
];

#[test]
fn reruns_of_a_put(rt: HostRuntime) -> Result<(), Fail> {
    expect_over(&rt, rt.alloc(), "[]", RERUNS_OF_A_PUT)
}

/// A plan that was made before the last of seven entries.
const STALE_PLAN: &[Row] = &[
    (Act::Define("w", PUT), "ok"),
    (Act::Start("a", "w", r#"{"v":"1"}"#), "ok"),
    (Act::Start("b", "w", r#"{"v":"2"}"#), "ok"),
    (Act::Step("a"), "ok"),
    (Act::Step("b"), "ok"),
    (Act::Undo("b#1"), "ok"),
    (Act::LateRollback("a#1", "b#0"), "stale at 7"),
    (Act::LateRollback("a#1", "b#0"), "ok"),
    (Act::LateRollback("a#1", "a#0"), "no step"),
];

#[test]
fn plans_grow_stale(rt: HostRuntime) -> Result<(), Fail> {
    expect_over(&rt, rt.alloc(), "[]", STALE_PLAN)
}

/// A read that no later write needs is undone in the middle, and taken again stands last.
const FREE_STEPS: &[Row] = &[
    (Act::Define("g", GET), "ok"),
    (Act::Start("a", "g", "{}"), "ok"),
    (Act::Start("b", "g", "{}"), "ok"),
    (Act::Step("a"), "ok"),
    (Act::Step("b"), "ok"),
    (Act::Undo("a#1"), "ok"),
    (Act::Step("a"), "ok"),
    (
        Act::Rerun(&["b#0", "b#1", "a#0", "a#1"]),
        r#"b#0 b#1 a#0 a#1 {"id":{"S":"k"},"v":{"S":"old"}}"#,
    ),
    (Act::UndoOrder(&["b#1", "b#0", "a#1", "a#0"]), "ok"),
    (Act::Rerun(&[]), r#"{"id":{"S":"k"},"v":{"S":"old"}}"#),
];

#[test]
fn free_steps(rt: HostRuntime) -> Result<(), Fail> {
    expect_over(&rt, rt.alloc(), OLD, FREE_STEPS)
}

// ---- growths that are refused

const GROWING: &[Row] = &[
    (Act::Define("q", TWO_BRANCHES), "ok"),
    (Act::Define("w", PUT), "ok"),
    (Act::Start("a", "w", r#"{"v":"1"}"#), "ok"),
    (Act::Start("e", "q", "{}"), "ok"),
    (Act::Step("a"), "ok"),
    (Act::Step("e"), "ok"),
    (Act::Step("e/1.0"), "ok"),
    (Act::Step("e/1.1"), "ok"),
    (Act::CanUndo("e/1.0#1"), "ok"),
    (Act::Hold("e/1.1#1"), "ok"),
    (Act::Step("e/1.1"), "held by e/1.1#1"),
    (Act::Hold("a#0"), "held by e/1.1#1"),
    (Act::Settle, "held by e/1.1#1"),
    (Act::Undo("e/1.1#1"), "ok"),
    (Act::Step("e/1.1"), "ok"),
    (
        Act::Rerun(&["e#0", "e#1", "a#0", "e/1.1#1"]),
        "e#0 e#1 a#0 e/1.1#1 ",
    ),
    (Act::UndoOrder(&["e/1.0#1", "e#1"]), "needed by e/1.1#1"),
    (Act::UndoOrder(&["e/1.0#1", "e/1.1#1"]), "ok"),
    (Act::Settle, "ok"),
    (Act::Undo("e#1"), "settled"),
    (Act::Step("e/1.1"), "ok"),
    (Act::Settle, "ok"),
    (Act::Step("e/1.0"), "ok"),
    (
        Act::Rerun(&["e/1.0#1"]),
        r#"e/1.0#1 {"id":{"S":"k"},"v":{"S":"1"}}"#,
    ),
];

/// For tools/refused-growths.sh: whichever growth is refused, its command changes nothing, and is answered when it is given again.
#[test]
fn refused_growths_change_nothing(rt: HostRuntime) -> Result<(), Fail> {
    expect_over(&rt, rt.alloc(), "[]", GROWING)
}

const TAKEN_BACK: &[Row] = &[
    (Act::Define("w", PUT), "ok"),
    (Act::Start("a", "w", r#"{"v":"1"}"#), "ok"),
    (Act::Start("b", "w", r#"{"v":"2"}"#), "ok"),
    (Act::Step("a"), "ok"),
    (Act::Step("b"), "ok"),
];

/// Whether a step is undone, and a start rolled back with its step, once there is room for it.
fn takes_back(alloc: Global, book: &mut Book) -> Result<bool, Fail> {
    let last = step_of(alloc, "b#1")?;
    let first = step_of(alloc, "a#0")?;
    let room = book.room(alloc, &last)?;
    let Ok(_) = book.undo(room) else {
        return Ok(false);
    };
    let plan = book.plan_room(alloc, &first)?;
    match book.rollback(plan) {
        Ok(undone) => Ok(undone.names().len() == 2),
        Err(_) => Ok(false),
    }
}

fn takes_back_what_was_taken(rt: &impl Abort, alloc: Global) -> Result<bool, Fail> {
    let mut book = book_over(alloc, "[]")?;
    match expect(rt, alloc, &mut book, TAKEN_BACK) {
        Ok(()) => {
            let is_so = takes_back(alloc, &mut book);
            drop(book);
            is_so
        }
        Err(fail) => {
            drop(book);
            Err(fail)
        }
    }
}

/// For tools/refused-growths.sh: a growth that is refused is the test's own or a room's, and never one of an undoing or a rollback.
#[test]
fn undoings_want_no_memory(rt: HostRuntime) -> Result<(), Fail> {
    assert!(rt; takes_back_what_was_taken(&rt, rt.alloc())?);
    Ok(())
}

// ---- the first thread that can move

/// The first thread that can move, of those that are not passed by.
fn is_first(
    alloc: Global,
    book: &Book,
    passed: &BTreeSet<ThreadName>,
    want: &str,
) -> Result<bool, Fail> {
    match book.first_ready(alloc, passed)? {
        Some(first) => Ok(first.write_text(alloc)?.as_str() == want),
        None => Ok(want.is_empty()),
    }
}

/// Whether these are the first, each where the ones before it are passed by, and there is no other.
fn are_first(alloc: Global, book: &Book, names: &[&str]) -> Result<bool, Fail> {
    let mut passed = BTreeSet::new(alloc);
    for name in names {
        if !is_first(alloc, book, &passed, name)? {
            return Ok(false);
        }
        passed.insert(ThreadName::read(alloc, name)?)?;
    }
    is_first(alloc, book, &passed, "")
}

fn has_first(rt: &impl Abort, alloc: Global, book: &mut Book) -> Result<bool, Fail> {
    let rows: &[Row] = &[
        (Act::Define("q", TWO_BRANCHES), "ok"),
        (Act::Start("e", "q", "{}"), "ok"),
        (Act::Step("e"), "ok"),
    ];
    expect(rt, alloc, book, rows)?;
    are_first(alloc, book, &["e/1.0", "e/1.1"])
}

#[test]
fn first_threads(rt: HostRuntime) -> Result<(), Fail> {
    let mut book = book_over(rt.alloc(), "[]")?;
    let found = has_first(&rt, rt.alloc(), &mut book);
    drop(book);
    assert!(rt; found?);
    Ok(())
}
