// The commands that are given to a book whose commands stand in a journal, but for a round of workers.
ghost use Rattle.std.specs.Prelude.{◌≡◌, [], Some, None, false, string_bytes, OnOk, OnErr};
ghost use Rattle.sqlite.specs.Held.{state};
ghost use Rattle.journaled_book.specs.Lines.{IsBeginLine, SaysChange};
ghost use Rattle.journaled_book.specs.Answered.{IsProperChange};
ghost use Rattle.operator_line.specs.Answering.{is_work};
ghost use Rattle.operator_line.specs.Answers.{AnswersBeginning, AnswersCommand, change_reply, left_names};
ghost use Rattle.operator_line.specs.Sessions.{KeepsLine, WasClean, has_own_lines, log_in};
ghost use Rattle.command_lines.specs.Grammar as grammar;
ghost use Rattle.command_lines.specs.Grammar.{CommandView, command_of, command_view};
ghost use Rattle.reply_lines.specs.Replies.{json_reply, item_fault_reply, names_reply};
ghost use Rattle.reply_lines.specs.Replying.{AppendsReply};

use crate::driving::drive;
use crate::working::tell_no_steps;
use attr_values::{ItemFault, KeySchema};
use book_log::{Begin, Refusal};
use command_lines::{Command, Execution};
use journaled_book::calls::{BookCalls, Change};
use journaled_book::{BeginRefusal, EntryFault, JournaledBook};
use json_tree::{Json, JsonFault, Text, read};
use reply_lines::Reply;
use serde_json::Value;
use sqlite::Alter;
use std::alloc::{AllocError, Global};
use std::marker::Model;
use step_names::{StepName, ThreadName};

pub(crate) const BAD_LINE: u32 = 20;

pub(crate) const NO_TABLE: u32 = 21;

const TABLE_TAKEN: u32 = 22;

const BAD_BEGIN: u32 = 23;

const NO_JOURNAL: u32 = 24;

const BAD_JSON: u32 = 25;

/// The book of a session that hasn't failed, none before its table is given, and the journal of its accepted lines. Contracts see both.
#[derive(Drop)]
pub(crate) struct OpenSession<B: BookCalls, S: Alter> {
    pub(crate) alloc: Global,
    pub(crate) book: JournaledBook<B, S>,
}

impl<B: BookCalls, S: Alter> Model for OpenSession<B, S> {
    ghost use Rattle.std.specs.Coded.{coded_option};
    ghost use Rattle.journaled_book.specs.Journaled.{Journaled, journaled_code};

    ghost Value = { Journaled B S };

    ghost coded = { journaled_code (coded_option B.code) S.code };

    ghost view = { λ s. s.book };
}

impl<B: BookCalls, S: Alter> OpenSession<B, S> {
    /// What a command does that isn't a round of workers, and its reply.
    #[tactic(auto, using(crate::proofs::Sessions::kept_clean))]
    pub(crate) fn run(
        &mut self,
        command: Command<'_>,
        line: &str,
        reply: &mut Reply,
    ) -> Result<(), AllocError>
        requires line { command_of line.now ≡ Some (command_view command) }
        requires alone { is_work (command_view command) ≡ false }
        requires empty { string_bytes reply.old.text ≡ [] }
        ensures ok { OnOk result (AnswersCommand (log_in B.log self.old) (command_view command.entry) (string_bytes reply.new.text) (log_in B.log self.new)) }
        ensures err { OnErr result (log_in B.log self.new ≡ log_in B.log self.old) }
        ensures kept { has_own_lines (Some (command_view command.entry)) ≡ false → KeepsLine (λ held. state S.Store held) line.now self.old.journal self.new.journal }
        ensures clean { WasClean (λ held. state S.Store held) self.old.journal self.new.journal }
    {
        match command {
            Command::Table {
                name,
                schema,
                items,
            } => self.table(name, schema, items, line, reply),
            Command::Define { name, definition } => self.define(&name, definition, line, reply),
            Command::Start {
                exec,
                machine,
                input,
            } => self.start(&exec, &machine, input, line, reply),
            Command::Step(thread) => self.change(Change::Step { thread: &thread }, line, reply),
            Command::Undo(step) => self.change(Change::Undo { step: &step }, line, reply),
            Command::Plan(step) => self.plan(&step, reply),
            Command::Rollback(step) => self.change(Change::Rollback { step: &step }, line, reply),
            Command::Settle => self.change(Change::Settle, line, reply),
            Command::Hold(step) => self.change(Change::Hold { step: &step }, line, reply),
            Command::Drive(count) => self.drive(count, reply),
            Command::Work { .. } => unreachable!(),
            Command::Show(thread) => self.show(&thread, reply),
            Command::Items => self.items(reply),
            Command::History => self.history(reply),
            Command::Held => self.held(reply),
        }
    }

    fn table(
        &mut self,
        table: Text,
        schema: KeySchema,
        items: &str,
        line: &str,
        reply: &mut Reply,
    ) -> Result<(), AllocError>
        requires line { command_of line.now ≡ Some (grammar.table table schema items.now) }
        requires empty { string_bytes reply.old.text ≡ [] }
        ensures ok { OnOk result (AnswersCommand (log_in B.log self.old) (grammar.table table schema items.now) (string_bytes reply.new.text) (log_in B.log self.new)) }
        ensures err { OnErr result (log_in B.log self.new ≡ log_in B.log self.old) }
        ensures kept { KeepsLine (λ held. state S.Store held) line.now self.old.journal self.new.journal }
    {
        if self.book.is_open() {
            return reply.refuse(TABLE_TAKEN);
        }
        match read(self.alloc, items.as_bytes()) {
            Ok(Json::List(items)) => {
                let begin = Begin {
                    table,
                    schema,
                    items,
                };
                self.begin(begin, line, reply)
            }
            Ok(other) => {
                drop(other);
                reply.refuse_by(BAD_BEGIN, 1)
            }
            Err(fault) => refuse_json(fault, reply),
        }
    }

    fn begin(&mut self, begin: Begin, line: &str, reply: &mut Reply) -> Result<(), AllocError>
        requires closed { self.old.book ≡ None }
        requires line { IsBeginLine line.now begin }
        requires empty { string_bytes reply.old.text ≡ [] }
        ensures ok { OnOk result (AnswersBeginning begin (string_bytes reply.new.text) (log_in B.log self.new)) }
        ensures err { OnErr result (log_in B.log self.new ≡ None) }
        ensures kept { KeepsLine (λ held. state S.Store held) line.now self.old.journal self.new.journal }
    {
        reply.accept()?;
        let Err(refusal) = self.book.begin(self.alloc, begin, line) else {
            return Ok(());
        };
        reply.clear();
        match refusal {
            BeginRefusal::Item(fault) => refuse_item(fault, reply),
            BeginRefusal::Journal(_) => reply.refuse(NO_JOURNAL),
        }
    }

    fn define(
        &mut self,
        name: &Text,
        definition: &str,
        line: &str,
        reply: &mut Reply,
    ) -> Result<(), AllocError>
        requires line { command_of line.now ≡ Some (grammar.define name.now definition.now) }
        requires empty { string_bytes reply.old.text ≡ [] }
        ensures ok { OnOk result (AnswersCommand (log_in B.log self.old) (grammar.define name.now definition.now) (string_bytes reply.new.text) (log_in B.log self.new)) }
        ensures err { OnErr result (log_in B.log self.new ≡ log_in B.log self.old) }
        ensures kept { KeepsLine (λ held. state S.Store held) line.now self.old.journal self.new.journal }
    {
        if !self.book.is_open() {
            return reply.refuse(NO_TABLE);
        }
        let definition = match Value::from_str(self.alloc, definition) {
            Ok(definition) => definition,
            Err(fault) => {
                if fault.is_memory() {
                    return Err(AllocError);
                }
                return reply.refuse_by(BAD_JSON, 1);
            }
        };
        self.change(
            Change::Define {
                name,
                definition: &definition,
            },
            line,
            reply,
        )
    }

    fn start(
        &mut self,
        exec: &Execution,
        machine: &Text,
        input: &str,
        line: &str,
        reply: &mut Reply,
    ) -> Result<(), AllocError>
        requires line { command_of line.now ≡ Some (grammar.start exec.now.thread machine.now input.now) }
        requires empty { string_bytes reply.old.text ≡ [] }
        ensures ok { OnOk result (AnswersCommand (log_in B.log self.old) (grammar.start exec.now.thread machine.now input.now) (string_bytes reply.new.text) (log_in B.log self.new)) }
        ensures err { OnErr result (log_in B.log self.new ≡ log_in B.log self.old) }
        ensures kept { KeepsLine (λ held. state S.Store held) line.now self.old.journal self.new.journal }
    {
        if !self.book.is_open() {
            return reply.refuse(NO_TABLE);
        }
        let input = match read(self.alloc, input.as_bytes()) {
            Ok(input) => input,
            Err(fault) => return refuse_json(fault, reply),
        };
        self.change(
            Change::Start {
                exec: &exec.thread,
                machine,
                input,
            },
            line,
            reply,
        )
    }

    /// Any command of one entry. The reply is written before its line is appended, since what stands in the journal can't be taken
    /// out again if memory for the reply is refused.
    fn change(
        &mut self,
        change: Change<'_>,
        line: &str,
        reply: &mut Reply,
    ) -> Result<(), AllocError>
        requires proper { IsProperChange change }
        requires says { SaysChange change line.now }
        requires empty { string_bytes reply.old.text ≡ [] }
        ensures ok { (command : CommandView) → command_of line.now ≡ Some command → OnOk result (AnswersCommand (log_in B.log self.old) command (string_bytes reply.new.text) (log_in B.log self.new)) }
        ensures err { OnErr result (log_in B.log self.new ≡ log_in B.log self.old) }
        ensures kept { KeepsLine (λ held. state S.Store held) line.now self.old.journal self.new.journal }
    {
        if !self.book.is_open() {
            drop(change);
            return reply.refuse(NO_TABLE);
        }
        let made = match self.book.prepare(self.alloc, change) {
            Ok(made) => made,
            Err(refusal) => return reply.refuse_command(self.alloc, refusal),
        };
        if let Err(AllocError) = reply.accept_entry(B::entry_of(&made)) {
            drop(made);
            return Err(AllocError);
        }
        match self.book.enter(made, line) {
            Ok(()) => Ok(()),
            Err(_) => {
                reply.clear();
                reply.refuse(NO_JOURNAL)
            }
        }
    }

    fn plan(&self, step: &StepName, reply: &mut Reply) -> Result<(), AllocError>
        requires { string_bytes reply.old.text ≡ [] }
        ensures ok { OnOk result (AnswersCommand (log_in B.log self.now) (grammar.plan step.now) (string_bytes reply.new.text) (log_in B.log self.now)) }
    {
        let Some(book) = self.book.book() else {
            return reply.refuse(NO_TABLE);
        };
        match book.plan_room(self.alloc, step) {
            Ok(room) => reply.accept_names(room.names()),
            Err(refusal) => reply.refuse_command(self.alloc, refusal),
        }
    }

    fn drive(&mut self, count: u32, reply: &mut Reply) -> Result<(), AllocError>
        requires { string_bytes reply.old.text ≡ [] }
        ensures ok { OnOk result (AnswersCommand (log_in B.log self.old) (grammar.drive count) (string_bytes reply.new.text) (log_in B.log self.new)) }
        ensures err { OnErr result (log_in B.log self.new ≡ log_in B.log self.old) }
        ensures clean { WasClean (λ held. state S.Store held) self.old.journal self.new.journal }
    {
        if !self.book.is_open() {
            return reply.refuse(NO_TABLE);
        }
        drive(self.alloc, &mut self.book, count, reply)
    }

    fn show(&self, thread: &ThreadName, reply: &mut Reply) -> Result<(), AllocError>
        requires { string_bytes reply.old.text ≡ [] }
        ensures ok { OnOk result (AnswersCommand (log_in B.log self.now) (grammar.show thread.now) (string_bytes reply.new.text) (log_in B.log self.now)) }
    {
        let Some(book) = self.book.book() else {
            return reply.refuse(NO_TABLE);
        };
        match book.show(thread) {
            Ok(frame) => reply.accept_frame(self.alloc, frame),
            Err(refusal) => reply.refuse_command(self.alloc, refusal),
        }
    }

    fn items(&self, reply: &mut Reply) -> Result<(), AllocError>
        requires { string_bytes reply.old.text ≡ [] }
        ensures ok { OnOk result (AnswersCommand (log_in B.log self.now) grammar.items (string_bytes reply.new.text) (log_in B.log self.now)) }
    {
        match self.book.book() {
            Some(book) => reply.accept_items(self.alloc, book.items()),
            None => reply.refuse(NO_TABLE),
        }
    }

    fn history(&self, reply: &mut Reply) -> Result<(), AllocError>
        requires { string_bytes reply.old.text ≡ [] }
        ensures ok { OnOk result (AnswersCommand (log_in B.log self.now) grammar.history (string_bytes reply.new.text) (log_in B.log self.now)) }
    {
        match self.book.book() {
            Some(book) => reply.accept_steps(book.history()),
            None => reply.refuse(NO_TABLE),
        }
    }

    fn held(&self, reply: &mut Reply) -> Result<(), AllocError>
        requires { string_bytes reply.old.text ≡ [] }
        ensures ok { OnOk result (AnswersCommand (log_in B.log self.now) grammar.held (string_bytes reply.new.text) (log_in B.log self.now)) }
    {
        match self.book.book() {
            Some(book) => tell_left(self.alloc, book, reply),
            None => reply.refuse(NO_TABLE),
        }
    }
}

/// Lists what is left of the hold, the latest first. Its step remains, so its plan is refused only if memory is.
#[tactic(auto, using(crate::proofs::Left::left_planned, crate::proofs::Left::none_left_of))]
fn tell_left<B: BookCalls>(alloc: Global, book: &B, reply: &mut Reply) -> Result<(), AllocError>
    requires { string_bytes reply.old.text ≡ [] }
    ensures { OnOk result (string_bytes reply.new.text ≡ names_reply (left_names (B.log book.now))) }
{
    let Some(step) = book.held() else {
        return tell_no_steps(alloc, reply);
    };
    match book.plan_room(alloc, step) {
        Ok(room) => reply.accept_names(room.names()),
        Err(_) => Err(AllocError),
    }
}

/// Tells why a command isn't accepted.
pub(crate) fn refuse_change(
    alloc: Global,
    fault: EntryFault,
    reply: &mut Reply,
) -> Result<(), AllocError>
    ensures ok { AppendsReply result reply.old reply.new (change_reply fault) }
    ensures memory { fault ≡ EntryFault.Book Refusal.Memory → OnOk result ⊥ }
{
    match fault {
        EntryFault::Book(refusal) => reply.refuse_command(alloc, refusal),
        EntryFault::Journal(_) => reply.refuse(NO_JOURNAL),
    }
}

/// Tells what is wrong with a text of JSON.
fn refuse_json(fault: JsonFault, reply: &mut Reply) -> Result<(), AllocError>
    ensures ok { AppendsReply result reply.old reply.new (json_reply fault) }
    ensures memory { fault ≡ JsonFault.Memory → OnOk result ⊥ }
{
    match fault {
        JsonFault::NotJson => reply.refuse_by(BAD_JSON, 1),
        JsonFault::NotWhole => reply.refuse_by(BAD_JSON, 2),
        JsonFault::Memory => Err(AllocError),
    }
}

/// Tells what is wrong with an item of the table's beginning.
fn refuse_item(fault: ItemFault, reply: &mut Reply) -> Result<(), AllocError>
    ensures ok { AppendsReply result reply.old reply.new (item_fault_reply fault) }
    ensures memory { fault ≡ ItemFault.Memory → OnOk result ⊥ }
{
    match fault {
        ItemFault::BadValue => reply.refuse_by(BAD_BEGIN, 1),
        ItemFault::BadNumber => reply.refuse_by(BAD_BEGIN, 2),
        ItemFault::NoKey => reply.refuse_by(BAD_BEGIN, 3),
        ItemFault::KeyType => reply.refuse_by(BAD_BEGIN, 4),
        ItemFault::EmptyKey => reply.refuse_by(BAD_BEGIN, 5),
        ItemFault::Memory => Err(AllocError),
    }
}
