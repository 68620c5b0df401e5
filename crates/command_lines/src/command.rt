// The commands, read from lines.
ghost use Rattle.std.specs.Prelude.{◌≡◌, ◌↔◌, None, Some, IfOk, IsErrOf, MatchResult, option_map};
ghost use Rattle.step_names.specs.Grammar as grammar;
ghost use Rattle.command_lines.specs.Grammar.{cut_at, command_of, text_command, words_command, command_by, table_of, define_of, start_of, execution_in, count_in, workers_in, work_of, command_view, attribute_of};

pub use crate::execution::Execution;
pub use crate::words::LONGEST_LINE;
use crate::words::{KeyWord, cut, first_word, is_one_line, is_table_name, read_key};
use attr_values::{KeyAttribute, KeySchema};
use json_tree::Text;
use std::alloc::{AllocError, AllocFailed, Global};
use step_names::{NameFault, StepName, ThreadName, is_name, read_number};

/// Why a line is no command.
#[derive(Clone, Copy, Debug, PartialEq, Eq)]
pub enum CommandFault {
    /// The line isn't UTF-8, or not of the grammar.
    BadLine,
    /// Memory was refused.
    Memory,
}

impl From<AllocError> for CommandFault {
    ghost use Rattle.command_lines.specs.declared.command.CommandFault.TheVariants.{Memory};
    ghost use Rattle.std.specs.Prelude.{◌≡◌};

    ghost from_gives = { λ _ e. e ≡ Memory };

    fn from(_refused: AllocError) -> CommandFault {
        CommandFault::Memory
    }
}

impl<T: Drop> From<AllocFailed<T>> for CommandFault {
    ghost use Rattle.command_lines.specs.declared.command.CommandFault.TheVariants.{Memory};
    ghost use Rattle.std.specs.Prelude.{◌≡◌};

    ghost from_gives = { λ _ e. e ≡ Memory };

    fn from(_refused: AllocFailed<T>) -> CommandFault {
        CommandFault::Memory
    }
}

/// A line of the operators' language. A text of JSON is borrowed from the line, and not read yet.
#[derive(Debug, Drop)]
pub enum Command<'a> {
    /// To begin the book: the table's name, its key, and its items' JSON.
    Table {
        name: Text,
        schema: KeySchema,
        items: &'a str,
    },
    /// To define a machine of this name by the definition's JSON.
    Define {
        name: Text,
        definition: &'a str,
    },
    /// To start an execution of a machine with the input's JSON.
    Start {
        exec: Execution,
        machine: Text,
        input: &'a str,
    },
    /// To take the next step of a thread.
    Step(ThreadName),
    /// To take one step back, on which no other depends.
    Undo(StepName),
    /// To tell what a rollback of this step would take back.
    Plan(StepName),
    /// To take back a step and its consequences.
    Rollback(StepName),
    /// To settle the remaining steps, which can't be taken back then.
    Settle,
    /// To hold a step and its consequences, which are to be taken back one by one.
    Hold(StepName),
    /// At most so many steps, from 1 to 65,536.
    Drive(u32),
    /// A round of so many workers, from 1 to 8, that take at most so many steps together, from 1 to 65,536.
    Work {
        workers: u32,
        moves: u32,
    },
    /// To tell where a thread stands.
    Show(ThreadName),
    /// To list the items.
    Items,
    /// To list the remaining steps.
    History,
    /// To list what is left of the hold.
    Held,
}

impl<'a> Command<'a> {
    /// The command of a line without its end, which has at most [`LONGEST_LINE`] bytes. Takes time linear in the line, and memory for
    /// the names of a command: a line that is none is told before any memory is asked for.
    ///
    /// # Errors
    ///
    /// `BadLine` where the line is no command, and `Memory`.
    pub fn read(alloc: Global, line: &'a [u8]) -> Result<Command<'a>, CommandFault>
        ensures ok { IfOk result (λ c. command_of line.now ≡ Some (command_view c)) }
        ensures bad { IsErrOf result CommandFault.BadLine ↔ (command_of line.now ≡ None) }
    {
        match str::from_utf8(line) {
            Ok(text) => Command::read_text(alloc, text),
            Err(_) => Err(CommandFault::BadLine),
        }
    }

    /// The same of a line that is text already: it isn't looked at once more for its encoding.
    ///
    /// # Errors
    ///
    /// Those of `read`.
    pub fn read_text(alloc: Global, text: &'a str) -> Result<Command<'a>, CommandFault>
        ensures ok { IfOk result (λ c. command_of text.now ≡ Some (command_view c)) }
        ensures bad { IsErrOf result CommandFault.BadLine ↔ (command_of text.now ≡ None) }
    {
        read_line(alloc, text, text.as_bytes())
    }
}

fn read_line<'a>(alloc: Global, text: &'a str, bytes: &[u8]) -> Result<Command<'a>, CommandFault>
    requires { bytes.now ≡ text.now }
    ensures ok { IfOk result (λ c. text_command text.now ≡ Some (command_view c)) }
    ensures bad { IsErrOf result CommandFault.BadLine ↔ (text_command text.now ≡ None) }
{
    if is_one_line(bytes) {
        read_spelled(alloc, text)
    } else {
        Err(CommandFault::BadLine)
    }
}

fn read_spelled(alloc: Global, text: &str) -> Result<Command<'_>, CommandFault>
    ensures ok { IfOk result (λ c. words_command text.now ≡ Some (command_view c)) }
    ensures bad { IsErrOf result CommandFault.BadLine ↔ (words_command text.now ≡ None) }
{
    match text {
        "items" => Ok(Command::Items),
        "history" => Ok(Command::History),
        "settle" => Ok(Command::Settle),
        "held" => Ok(Command::Held),
        _ => match cut(text, ' ') {
            Some((keyword, rest)) => read_words(alloc, keyword, rest),
            None => Err(CommandFault::BadLine),
        },
    }
}

/// The command whose first word this is, from the rest of its line.
fn read_words<'a>(alloc: Global, keyword: &str, rest: &'a str) -> Result<Command<'a>, CommandFault>
    ensures ok { IfOk result (λ c. command_by keyword.now rest.now ≡ Some (command_view c)) }
    ensures bad { IsErrOf result CommandFault.BadLine ↔ (command_by keyword.now rest.now ≡ None) }
{
    match keyword {
        "table" => read_table(alloc, rest),
        "define" => read_define(alloc, rest),
        "start" => read_start(alloc, rest),
        "step" => Ok(Command::Step(read_thread(alloc, rest)?)),
        "undo" => Ok(Command::Undo(read_step(alloc, rest)?)),
        "plan" => Ok(Command::Plan(read_step(alloc, rest)?)),
        "rollback" => Ok(Command::Rollback(read_step(alloc, rest)?)),
        "hold" => Ok(Command::Hold(read_step(alloc, rest)?)),
        "drive" => Ok(Command::Drive(read_count(rest)?)),
        "work" => read_work(rest),
        "show" => Ok(Command::Show(read_thread(alloc, rest)?)),
        _ => Err(CommandFault::BadLine),
    }
}

fn read_table(alloc: Global, text: &str) -> Result<Command<'_>, CommandFault>
    ensures ok { IfOk result (λ c. table_of text.now ≡ Some (command_view c)) }
    ensures bad { IsErrOf result CommandFault.BadLine ↔ (table_of text.now ≡ None) }
{
    let (name, rest) = parted(text)?;
    if !is_table_name(name) {
        return Err(CommandFault::BadLine);
    }
    let (word, rest) = parted(rest)?;
    let Some(partition) = read_key(word) else {
        return Err(CommandFault::BadLine);
    };
    let sort = read_key(first_word(rest));
    let items = match sort {
        None => rest,
        Some(sort) => {
            if sort.name == partition.name {
                return Err(CommandFault::BadLine);
            }
            parted(rest)?.1
        }
    };
    Ok(Command::Table {
        name: Text::new(alloc, name)?,
        schema: schema_of(alloc, partition, sort)?,
        items,
    })
}

fn schema_of(
    alloc: Global,
    partition: KeyWord<'_>,
    sort: Option<KeyWord<'_>>,
) -> Result<KeySchema, AllocError>
    ensures { IfOk result (λ k. k ≡ record { partition = attribute_of partition.entry; sort = option_map attribute_of sort.entry }) }
{
    let sort = match sort {
        Some(sort) => Some(attribute_of(alloc, sort)?),
        None => None,
    };
    Ok(KeySchema {
        partition: attribute_of(alloc, partition)?,
        sort,
    })
}

fn attribute_of(alloc: Global, key: KeyWord<'_>) -> Result<KeyAttribute, AllocError>
    ensures { IfOk result (λ a. a ≡ attribute_of key.entry) }
{
    Ok(KeyAttribute {
        name: Text::new(alloc, key.name)?,
        kind: key.kind,
    })
}

fn read_define(alloc: Global, text: &str) -> Result<Command<'_>, CommandFault>
    ensures ok { IfOk result (λ c. define_of text.now ≡ Some (command_view c)) }
    ensures bad { IsErrOf result CommandFault.BadLine ↔ (define_of text.now ≡ None) }
{
    let (name, definition) = parted(text)?;
    if !is_name(name) {
        return Err(CommandFault::BadLine);
    }
    Ok(Command::Define {
        name: Text::new(alloc, name)?,
        definition,
    })
}

fn read_start(alloc: Global, text: &str) -> Result<Command<'_>, CommandFault>
    ensures ok { IfOk result (λ c. start_of text.now ≡ Some (command_view c)) }
    ensures bad { IsErrOf result CommandFault.BadLine ↔ (start_of text.now ≡ None) }
{
    let (exec, rest) = parted(text)?;
    let (machine, input) = parted(rest)?;
    if !is_name(machine) {
        return Err(CommandFault::BadLine);
    }
    Ok(Command::Start {
        exec: read_execution(alloc, exec)?,
        machine: Text::new(alloc, machine)?,
        input,
    })
}

/// An execution's own thread.
fn read_execution(alloc: Global, word: &str) -> Result<Execution, CommandFault>
    ensures ok { IfOk result (λ e. execution_in word.now ≡ Some e.thread) }
    ensures bad { IsErrOf result CommandFault.BadLine ↔ (execution_in word.now ≡ None) }
{
    if !is_name(word) {
        return Err(CommandFault::BadLine);
    }
    match ThreadName::new(alloc, Text::new(alloc, word)?) {
        Some(thread) => Ok(Execution { thread }),
        None => Err(CommandFault::BadLine),
    }
}

fn read_thread(alloc: Global, word: &str) -> Result<ThreadName, CommandFault>
    ensures ok { IfOk result (λ t. grammar.read_thread word.now ≡ Some t) }
    ensures bad { IsErrOf result CommandFault.BadLine ↔ (grammar.read_thread word.now ≡ None) }
{
    match ThreadName::read(alloc, word) {
        Ok(thread) => Ok(thread),
        Err(NameFault::BadName) => Err(CommandFault::BadLine),
        Err(NameFault::Memory) => Err(CommandFault::Memory),
    }
}

fn read_step(alloc: Global, word: &str) -> Result<StepName, CommandFault>
    ensures ok { IfOk result (λ s. grammar.read_step word.now ≡ Some s) }
    ensures bad { IsErrOf result CommandFault.BadLine ↔ (grammar.read_step word.now ≡ None) }
{
    match StepName::read(alloc, word) {
        Ok(step) => Ok(step),
        Err(NameFault::BadName) => Err(CommandFault::BadLine),
        Err(NameFault::Memory) => Err(CommandFault::Memory),
    }
}

/// A drive or a round takes at most so many steps.
const MOST_DRIVEN: u32 = 65_536;

/// A number of steps, from 1 to the most that a drive or a round takes.
fn read_count(word: &str) -> Result<u32, CommandFault>
    ensures { MatchResult result (λ n. count_in word.now ≡ Some n) (λ e. (e ≡ CommandFault.BadLine) × (count_in word.now ≡ None)) }
{
    match read_number(word) {
        Some(count) if 1 <= count && count <= MOST_DRIVEN => Ok(count),
        _ => Err(CommandFault::BadLine),
    }
}

fn read_work(text: &str) -> Result<Command<'_>, CommandFault>
    ensures { MatchResult result (λ c. work_of text.now ≡ Some (command_view c)) (λ e. (e ≡ CommandFault.BadLine) × (work_of text.now ≡ None)) }
{
    let (workers, moves) = parted(text)?;
    Ok(Command::Work {
        workers: read_workers(workers)?,
        moves: read_count(moves)?,
    })
}

/// A round has at most so many workers.
const MOST_WORKERS: u32 = 8;

/// A number of workers, from 1 to the most that a round has.
fn read_workers(word: &str) -> Result<u32, CommandFault>
    ensures { MatchResult result (λ n. workers_in word.now ≡ Some n) (λ e. (e ≡ CommandFault.BadLine) × (workers_in word.now ≡ None)) }
{
    match read_number(word) {
        Some(count) if 1 <= count && count <= MOST_WORKERS => Ok(count),
        _ => Err(CommandFault::BadLine),
    }
}

/// The first word, and what comes after the space behind it.
fn parted(text: &str) -> Result<(&str, &str), CommandFault>
    ensures { MatchResult result (λ x. cut_at 32 text.now ≡ Some (x.0.now, x.1.now)) (λ e. (e ≡ CommandFault.BadLine) × (cut_at 32 text.now ≡ None)) }
{
    match cut(text, ' ') {
        Some(parts) => Ok(parts),
        None => Err(CommandFault::BadLine),
    }
}
