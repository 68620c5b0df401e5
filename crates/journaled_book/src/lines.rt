// What one line does to a book.
ghost use Rattle.std.specs.Prelude.{◌≡◌, ℕ, List, Err, IfOk, OnOk, Some, None};
ghost use Rattle.book_log.specs.declared.refusal.Refusal.{Refusal};
ghost use Rattle.command_lines.specs.Grammar as grammar;
ghost use Rattle.command_lines.specs.Grammar.{command_view};
ghost use Rattle.book_events.specs.Answered.{IsProperChange};
ghost use Rattle.journaled_book.specs.Journaled.{log_of};
ghost use Rattle.journaled_book.specs.Lines.{Adds, Begins, Follows, IsDamaged, SaysChange};
ghost use Rattle.journaled_book.specs.Reading.{AddsBy, BeginsBy, IsDamagedBy, refused_line};

use crate::fault::LineFault;
use crate::parts::{open_book, read_definition, read_items, read_value};
use attr_values::KeySchema;
use book_events::{BookCalls, Change};
use book_log::{Begin, Refusal};
use command_lines::{Command, CommandFault, Execution};
use json_tree::Text;
use std::alloc::Global;

/// The book after one more line: the first begins it, and each other is one entry.
pub(crate) fn add_line<B: BookCalls>(
    alloc: Global,
    book: Option<B>,
    line: &str,
) -> Result<B, LineFault>
    ensures ok { IfOk result (λ b. Follows (log_of B.log book) line.now (B.log b)) }
    ensures damaged { result ≡ Err LineFault.Damaged → IsDamaged (log_of B.log book) line.now }
{
    match book {
        None => begin_by_line(alloc, line),
        Some(book) => {
            let mut book = book;
            match enter_line(alloc, &mut book, line) {
                Ok(()) => Ok(book),
                Err(fault) => {
                    drop(book);
                    Err(fault)
                }
            }
        }
    }
}

fn begin_by_line<B: BookCalls>(alloc: Global, line: &str) -> Result<B, LineFault>
    ensures ok { IfOk result (λ b. Begins line.now (B.log b)) }
    ensures damaged { result ≡ Err LineFault.Damaged → IsDamaged None line.now }
{
    match Command::read_text(alloc, line) {
        Ok(command) => begin_by(alloc, command),
        Err(CommandFault::BadLine) => Err(LineFault::Damaged),
        Err(CommandFault::Memory) => Err(LineFault::Memory),
    }
}

fn begin_by<B: BookCalls>(alloc: Global, command: Command<'_>) -> Result<B, LineFault>
    ensures ok { IfOk result (λ b. BeginsBy (command_view command.entry) (B.log b)) }
    ensures damaged { result ≡ Err LineFault.Damaged → IsDamagedBy None (command_view command.entry) }
{
    match command {
        Command::Table {
            name,
            schema,
            items,
        } => begin_table(alloc, name, schema, items),
        other => {
            drop(other);
            Err(LineFault::Damaged)
        }
    }
}

fn begin_table<B: BookCalls>(
    alloc: Global,
    table: Text,
    schema: KeySchema,
    items: &str,
) -> Result<B, LineFault>
    ensures ok { IfOk result (λ b. BeginsBy (grammar.table table schema items.now) (B.log b)) }
    ensures damaged { result ≡ Err LineFault.Damaged → IsDamagedBy None (grammar.table table schema items.now) }
{
    match read_items(alloc, items) {
        Ok(items) => open_book(
            alloc,
            Begin {
                table,
                schema,
                items,
            },
        ),
        Err(fault) => {
            drop(table);
            drop(schema);
            Err(fault)
        }
    }
}

fn enter_line<B: BookCalls>(alloc: Global, book: &mut B, line: &str) -> Result<(), LineFault>
    ensures ok { OnOk result (Adds (B.log book.old) line.now (B.log book.new)) }
    ensures damaged { result ≡ Err LineFault.Damaged → IsDamaged (Some (B.log book.old)) line.now }
{
    match Command::read_text(alloc, line) {
        Ok(command) => enter_command(alloc, book, command),
        Err(CommandFault::BadLine) => Err(LineFault::Damaged),
        Err(CommandFault::Memory) => Err(LineFault::Memory),
    }
}

fn enter_command<B: BookCalls>(
    alloc: Global,
    book: &mut B,
    command: Command<'_>,
) -> Result<(), LineFault>
    ensures ok { OnOk result (AddsBy (B.log book.old) (command_view command.entry) (B.log book.new)) }
    ensures damaged { result ≡ Err LineFault.Damaged → IsDamagedBy (Some (B.log book.old)) (command_view command.entry) }
{
    match command {
        Command::Define { name, definition } => enter_define(alloc, book, &name, definition),
        Command::Start {
            exec,
            machine,
            input,
        } => enter_start(alloc, book, &exec, &machine, input),
        Command::Step(thread) => enter_change(alloc, book, Change::Step { thread: &thread }),
        Command::Undo(step) => enter_change(alloc, book, Change::Undo { step: &step }),
        Command::Rollback(step) => enter_change(alloc, book, Change::Rollback { step: &step }),
        Command::Settle => enter_change(alloc, book, Change::Settle),
        Command::Hold(step) => enter_change(alloc, book, Change::Hold { step: &step }),
        other => {
            drop(other);
            Err(LineFault::Damaged)
        }
    }
}

fn enter_define<B: BookCalls>(
    alloc: Global,
    book: &mut B,
    name: &Text,
    definition: &str,
) -> Result<(), LineFault>
    ensures ok { OnOk result (AddsBy (B.log book.old) (grammar.define name.now definition.now) (B.log book.new)) }
    ensures damaged { result ≡ Err LineFault.Damaged → IsDamagedBy (Some (B.log book.old)) (grammar.define name.now definition.now) }
{
    let definition = read_definition(alloc, definition)?;
    enter_change(
        alloc,
        book,
        Change::Define {
            name,
            definition: &definition,
        },
    )
}

fn enter_start<B: BookCalls>(
    alloc: Global,
    book: &mut B,
    exec: &Execution,
    machine: &Text,
    input: &str,
) -> Result<(), LineFault>
    ensures ok { OnOk result (AddsBy (B.log book.old) (grammar.start exec.now.thread machine.now input.now) (B.log book.new)) }
    ensures damaged { result ≡ Err LineFault.Damaged → IsDamagedBy (Some (B.log book.old)) (grammar.start exec.now.thread machine.now input.now) }
{
    let input = read_value(alloc, input)?;
    enter_change(
        alloc,
        book,
        Change::Start {
            exec: &exec.thread,
            machine,
            input,
        },
    )
}

fn enter_change<B: BookCalls>(
    alloc: Global,
    book: &mut B,
    change: Change<'_>,
) -> Result<(), LineFault>
    requires { IsProperChange change }
    ensures ok { OnOk result ((line : List ℕ) → SaysChange change.entry line → Adds (B.log book.old) line (B.log book.new)) }
    ensures damaged { result ≡ Err LineFault.Damaged → (line : List ℕ) → SaysChange change.entry line → IsDamaged (Some (B.log book.old)) line }
{
    match book.ready_entry(alloc, change) {
        Ok(made) => {
            book.enter(made);
            Ok(())
        }
        Err(refusal) => Err(refused_line(refusal)),
    }
}

/// How a refusal of the book is told of a line.
fn refused_line(refusal: Refusal) -> LineFault
    ensures { result ≡ refused_line refusal }
{
    match refusal {
        Refusal::Memory => LineFault::Memory,
        other => {
            drop(other);
            LineFault::Damaged
        }
    }
}
