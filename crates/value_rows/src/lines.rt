//! The grammar of the operators' lines.
use crate::fault::RowFault;
use crate::names::thread;
use crate::{attrs, items, json, keys, names, paths, templates};
use attr_values::{KeyAttribute, KeySchema, KeyType};
use command_lines::{Command, CommandFault, lines_are_spelled, step_line};
use std::alloc::Global;
use step_names::{StepName, ThreadName};

pub(crate) fn answer(
    alloc: Global,
    out: &mut String,
    word: &str,
    rest: &str,
) -> Result<(), RowFault> {
    match word {
        "step_line" => put_step_line(alloc, out, rest),
        "laws" => put_laws(out),
        _ => json::answer(alloc, out, word, rest),
    }
}

/// `laws`: calls each law of these libraries. They state what holds of all values, and do nothing.
fn put_laws(out: &mut String) -> Result<(), RowFault> {
    json::state_laws();
    names::state_laws();
    paths::state_laws();
    templates::state_laws();
    attrs::state_laws();
    keys::state_laws();
    items::state_laws();
    lines_are_spelled();
    out.push_str("stated")?;
    Ok(())
}

/// `step_line T`: the line that takes a thread's next step.
fn put_step_line(alloc: Global, out: &mut String, text: &str) -> Result<(), RowFault> {
    let name = thread(alloc, text)?;
    let line = step_line(alloc, &name)?;
    out.push_str(line.as_str())?;
    Ok(())
}

/// `line LINE`: the command and its parts, with a bar before each part.
pub(crate) fn put_line(alloc: Global, out: &mut String, line: &[u8]) -> Result<(), RowFault> {
    match Command::read(alloc, line) {
        Ok(command) => put_command(alloc, out, &command),
        Err(CommandFault::BadLine) => Err(RowFault::Said("bad")),
        Err(CommandFault::Memory) => Err(RowFault::Memory),
    }
}

fn put_command(alloc: Global, out: &mut String, command: &Command<'_>) -> Result<(), RowFault> {
    match command {
        Command::Table {
            name,
            schema,
            items,
        } => put_table(out, name.as_str(), schema, items),
        Command::Define { name, definition } => {
            put_bars(out, "define", name.as_str())?;
            put_bar(out, definition)
        }
        Command::Start {
            exec,
            machine,
            input,
        } => {
            put_thread(alloc, out, "start", &exec.thread)?;
            put_bar(out, machine.as_str())?;
            put_bar(out, input)
        }
        Command::Step(thread) => put_thread(alloc, out, "step", thread),
        Command::Undo(step) => put_step(alloc, out, "undo", step),
        Command::Plan(step) => put_step(alloc, out, "plan", step),
        Command::Rollback(step) => put_step(alloc, out, "rollback", step),
        Command::Settle => put_word(out, "settle"),
        Command::Hold(step) => put_step(alloc, out, "hold", step),
        Command::Drive(count) => {
            write!(out, "drive|{count}")?;
            Ok(())
        }
        Command::Work { workers, moves } => {
            write!(out, "work|{workers}|{moves}")?;
            Ok(())
        }
        Command::Show(thread) => put_thread(alloc, out, "show", thread),
        Command::Items => put_word(out, "items"),
        Command::History => put_word(out, "history"),
        Command::Held => put_word(out, "held"),
    }
}

fn put_word(out: &mut String, word: &str) -> Result<(), RowFault> {
    out.push_str(word)?;
    Ok(())
}

fn put_bar(out: &mut String, part: &str) -> Result<(), RowFault> {
    out.push('|')?;
    put_word(out, part)
}

fn put_bars(out: &mut String, word: &str, part: &str) -> Result<(), RowFault> {
    put_word(out, word)?;
    put_bar(out, part)
}

fn put_thread(
    alloc: Global,
    out: &mut String,
    word: &str,
    name: &ThreadName,
) -> Result<(), RowFault> {
    let text = name.write_text(alloc)?;
    put_bars(out, word, text.as_str())
}

fn put_step(alloc: Global, out: &mut String, word: &str, name: &StepName) -> Result<(), RowFault> {
    let text = name.write_text(alloc)?;
    put_bars(out, word, text.as_str())
}

fn put_table(
    out: &mut String,
    name: &str,
    schema: &KeySchema,
    items: &str,
) -> Result<(), RowFault> {
    put_bars(out, "table", name)?;
    put_key(out, &schema.partition)?;
    match &schema.sort {
        Some(sort) => put_key(out, sort)?,
        None => put_bar(out, "")?,
    }
    put_bar(out, items)
}

fn put_key(out: &mut String, key: &KeyAttribute) -> Result<(), RowFault> {
    put_bar(out, key.name.as_str())?;
    put_word(
        out,
        match key.kind {
            KeyType::S => ":S",
            KeyType::N => ":N",
        },
    )
}
