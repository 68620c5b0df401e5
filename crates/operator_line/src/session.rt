// A session: a book whose commands stand in a journal, until a round of workers is lost.
ghost use Rattle.std.specs.Prelude.{◌≡◌, ◌≤◌, [], false, None, option_map, string_bytes, if◌then◌else◌, IfOk, IfErr, MatchResult, OnErr};
ghost use Rattle.sqlite.specs.Held.{state};
ghost use Rattle.sqlite.specs.State.{HasCleanDisk};
ghost use Rattle.book_journal.specs.Kept.{lines_in};
ghost use Rattle.book_journal.specs.declared.fault.JournalFault.TheVariants as journal_fault;
ghost use Rattle.journaled_book.specs.Changes.{IsRead};
ghost use Rattle.journaled_book.specs.Journaled.{IsJournalOf};
ghost use Rattle.journaled_book.specs.Opening.{OpensTo, RefusesOpen};
ghost use Rattle.operator_line.specs.Answering.{AnswersBy, AnswersTextBy, WorksBy, is_gone, is_lost, is_work};
ghost use Rattle.operator_line.specs.Sessions.{KeepsLine, KeepsRead, WasClean, has_own_lines, session_log, sitting_of};
ghost use Rattle.command_lines.specs.Grammar as grammar;
ghost use Rattle.command_lines.specs.Grammar.{command_of, command_view};
ghost use Rattle.operator_line.specs.Lines.{bytes_of};
ghost use Rattle.reply_lines.specs.Replies.{bad_line, refused};

use crate::line::Line;
use crate::open_session::{BAD_LINE, OpenSession};
use crate::working::{Worked, work_on};
use book_journal::Journal;
use command_lines::{Command, CommandFault};
use core::mem::replace_with;
use journaled_book::calls::BookCalls;
use journaled_book::{AwayBook, JournaledBook, OpenFault};
use reply_lines::Reply;
use sqlite::Alter;
use std::alloc::{AllocError, Global};
use std::marker::Model;
use std::sync::Wait;
use std::thread::Threads;

/// What a session has.
#[derive(Drop)]
pub(crate) enum Hand<B: BookCalls, S: Alter> {
    /// Book and journal.
    Open(OpenSession<B, S>),
    /// The journal of a book that was lost in a round.
    Failed(AwayBook<B, S>),
}

/// What came of a line.
#[derive(Clone, Copy)]
pub(crate) enum Answered {
    /// Its reply is there.
    Told,
    /// A round's steps couldn't be written down, and the session has failed.
    Lost,
}

/// The book of one session, none before its table is given, and the journal of its accepted lines. Contracts see both.
///
/// Where the steps of a round of workers can't be written down, the session has failed: the book is gone, and the journal is the one from
/// before the round, of which a session can be opened.
#[derive(Drop)]
pub struct Session<B: BookCalls, S: Alter> {
    alloc: Global,
    hand: Hand<B, S>,
}

impl<B: BookCalls, S: Alter> Model for Session<B, S> {
    ghost use Rattle.std.specs.Coded.{coded_option};
    ghost use Rattle.journaled_book.specs.Journaled.{journaled_code};
    ghost use Rattle.operator_line.specs.Sessions.{Sitting, sitting_code, sitting_of};

    ghost Value = { Sitting B S };

    ghost coded = { sitting_code (journaled_code (coded_option B.code) S.code) };

    ghost view = { λ s. sitting_of s.hand };
}

impl<B: BookCalls, S: Alter> Session<B, S> {
    /// The session of a journal's lines, which are applied one after another, without replies. Takes what
    /// [`JournaledBook::open`] takes.
    ///
    /// # Errors
    ///
    /// As `JournaledBook::open`; the journal is handed back as it was.
    pub fn open(
        alloc: Global,
        journal: Journal<S>,
    ) -> Result<Session<B, S>, (OpenFault, Journal<S>)>
        ensures opened { IfOk result (λ s. HasCleanDisk (state S.Store s.journal) → OpensTo (lines_in (state S.Store journal)) (session_log B.log s)) }
        ensures refused { IfErr result (λ e. HasCleanDisk (state S.Store e.1) → RefusesOpen (state S.Store journal) (state S.Store e.1) e.0) }
        ensures memory { IfErr result (λ e. ¬ (e.0 ≡ OpenFault.Journal journal_fault.Memory)) }
        ensures read { MatchResult result (λ s. IsRead (state S.Store journal) (state S.Store s.journal)) (λ e. IsRead (state S.Store journal) (state S.Store e.1)) }
        ensures here { IfOk result (λ s. s.is_failed ≡ false) }
    {
        match JournaledBook::open(alloc, journal) {
            Ok(book) => Ok(Session {
                alloc,
                hand: Hand::Open(OpenSession { alloc, book }),
            }),
            Err(refused) => Err(refused),
        }
    }

    /// The book, once its table was given, and none of a session that has failed. Takes no memory.
    pub fn book(&self) -> Option<&B>
        ensures book { option_map (λ book. book.now) result ≡ (if self.now.is_failed then None else self.now.book) }
        ensures journal { IsJournalOf (state S.Store self.now.journal) (session_log B.log self.now) }
    {
        match &self.hand {
            Hand::Open(open) => open.book.book(),
            Hand::Failed(away) => {
                // (what it promises holds of a session that has failed)
                let _journal = away.journal();
                None
            }
        }
    }

    /// Whether the session has failed.
    pub fn is_failed(&self) -> bool
        ensures { result ≡ self.now.is_failed }
    {
        matches!(self.hand, Hand::Failed(_))
    }

    /// The journal, which holds the lines of the book, or of the one from before the round that was lost.
    pub fn into_journal(self) -> Journal<S>
        ensures same { result ≡ self.journal }
        ensures journal { IsJournalOf (state S.Store result) (session_log B.log self) }
    {
        let Session { alloc: _, hand } = self;
        match hand {
            Hand::Open(open) => {
                let OpenSession { alloc: _, book } = open;
                book.into_journal()
            }
            Hand::Failed(away) => away.into_journal(),
        }
    }
}

impl<B: BookCalls + Send, S: Alter> Session<B, S> {
    /// Gives one line to the book, and writes its reply: none to an empty line. Where memory is refused, nothing has
    /// changed. Where the session fails, there is no reply.
    #[tactic(auto, using(crate::proofs::Sessions::bytes_answered, crate::proofs::Sessions::long_refused))]
    pub(crate) fn answer<R: Threads + Wait + Sync>(
        &mut self,
        rt: &R,
        line: Line<'_>,
        reply: &mut Reply,
    ) -> Result<Answered, AllocError>
        requires here { self.old.is_failed ≡ false }
        ensures ok { IfOk result (λ answered. AnswersBy answered (session_log B.log self.old) (bytes_of line.entry) (string_bytes reply.new.text) (session_log B.log self.new)) }
        ensures err { OnErr result (session_log B.log self.new ≡ session_log B.log self.old) }
        ensures kept { KeepsRead (λ held. state S.Store held) (bytes_of line.entry) self.old.journal self.new.journal }
        ensures empty { bytes_of line.entry ≡ Some [] → OnErr result ⊥ }
        ensures failed { self.new.is_failed ≡ is_lost result }
        ensures clean { WasClean (λ held. state S.Store held) self.old.journal self.new.journal }
    {
        reply.clear();
        match line {
            Line::Whole([]) => Ok(Answered::Told),
            Line::Whole(bytes) => self.answer_bytes(rt, bytes, reply),
            Line::TooLong => refuse_line(reply),
        }
    }

    fn answer_bytes<R: Threads + Wait + Sync>(
        &mut self,
        rt: &R,
        line: &[u8],
        reply: &mut Reply,
    ) -> Result<Answered, AllocError>
        requires here { self.old.is_failed ≡ false }
        requires empty { string_bytes reply.old.text ≡ [] }
        ensures ok { IfOk result (λ answered. AnswersTextBy answered (session_log B.log self.old) (command_of line.now) (string_bytes reply.new.text) (session_log B.log self.new)) }
        ensures err { OnErr result (session_log B.log self.new ≡ session_log B.log self.old) }
        ensures kept { has_own_lines (command_of line.now) ≡ false → KeepsLine (λ held. state S.Store held) line.now self.old.journal self.new.journal }
        ensures failed { self.new.is_failed ≡ is_lost result }
        ensures clean { WasClean (λ held. state S.Store held) self.old.journal self.new.journal }
    {
        match str::from_utf8(line) {
            Ok(text) => self.answer_text(rt, text, reply),
            Err(_) => refuse_line(reply),
        }
    }

    #[tactic(auto, using(crate::proofs::Sessions::line_refused, crate::proofs::Sessions::no_round))]
    fn answer_text<R: Threads + Wait + Sync>(
        &mut self,
        rt: &R,
        line: &str,
        reply: &mut Reply,
    ) -> Result<Answered, AllocError>
        requires here { self.old.is_failed ≡ false }
        requires empty { string_bytes reply.old.text ≡ [] }
        ensures ok { IfOk result (λ answered. AnswersTextBy answered (session_log B.log self.old) (command_of line.now) (string_bytes reply.new.text) (session_log B.log self.new)) }
        ensures err { OnErr result (session_log B.log self.new ≡ session_log B.log self.old) }
        ensures kept { has_own_lines (command_of line.now) ≡ false → KeepsLine (λ held. state S.Store held) line.now self.old.journal self.new.journal }
        ensures failed { self.new.is_failed ≡ is_lost result }
        ensures clean { WasClean (λ held. state S.Store held) self.old.journal self.new.journal }
    {
        match Command::read_text(self.alloc, line) {
            Ok(Command::Work { workers, moves }) => self.work(rt, workers, moves, reply),
            Ok(command) => self.run(command, line, reply),
            Err(CommandFault::BadLine) => refuse_line(reply),
            Err(CommandFault::Memory) => Err(AllocError),
        }
    }

    fn run(
        &mut self,
        command: Command<'_>,
        line: &str,
        reply: &mut Reply,
    ) -> Result<Answered, AllocError>
        requires here { self.old.is_failed ≡ false }
        requires line { command_of line.now ≡ Some (command_view command) }
        requires alone { is_work (command_view command) ≡ false }
        requires empty { string_bytes reply.old.text ≡ [] }
        ensures ok { IfOk result (λ answered. AnswersTextBy answered (session_log B.log self.old) (Some (command_view command.entry)) (string_bytes reply.new.text) (session_log B.log self.new)) }
        ensures err { OnErr result (session_log B.log self.new ≡ session_log B.log self.old) }
        ensures kept { has_own_lines (Some (command_view command.entry)) ≡ false → KeepsLine (λ held. state S.Store held) line.now self.old.journal self.new.journal }
        ensures failed { self.new.is_failed ≡ is_lost result }
        ensures clean { WasClean (λ held. state S.Store held) self.old.journal self.new.journal }
    {
        let Hand::Open(open) = &mut self.hand else {
            unreachable!()
        };
        open.run(command, line, reply)?;
        Ok(Answered::Told)
    }

    fn work<R: Threads + Wait + Sync>(
        &mut self,
        rt: &R,
        workers: u32,
        moves: u32,
        reply: &mut Reply,
    ) -> Result<Answered, AllocError>
        requires here { self.old.is_failed ≡ false }
        requires few { (1 ≤ workers) × (workers ≤ 8) }
        ensures ok { IfOk result (λ answered. AnswersTextBy answered (session_log B.log self.old) (Some (grammar.work workers moves)) (string_bytes reply.new.text) (session_log B.log self.new)) }
        ensures err { OnErr result (session_log B.log self.new ≡ session_log B.log self.old) }
        ensures failed { self.new.is_failed ≡ is_lost result }
        ensures clean { WasClean (λ held. state S.Store held) self.old.journal self.new.journal }
    {
        let worked = replace_with(
            &mut self.hand,
            (),
            |hand: Hand<B, S>, _: ()| -> (Hand<B, S>, Worked)
                requires here { (sitting_of hand).is_failed ≡ false }
                requires few { (1 ≤ workers) × (workers ≤ 8) }
                ensures worked { WorksBy result.1 (session_log B.log (sitting_of hand)) workers moves (session_log B.log (sitting_of result.0)) }
                ensures failed { (sitting_of result.0).is_failed ≡ is_gone result.1 }
                ensures clean { WasClean (λ held. state S.Store held) (sitting_of hand).journal (sitting_of result.0).journal }
            { work_on(rt, hand, workers, moves) },
        );
        match worked {
            Worked::Told(text) => {
                put(reply, text);
                Ok(Answered::Told)
            }
            Worked::NoMemory => Err(AllocError),
            Worked::Lost => Ok(Answered::Lost),
        }
    }
}

/// A line that is no command.
fn refuse_line(reply: &mut Reply) -> Result<Answered, AllocError>
    requires { string_bytes reply.old.text ≡ [] }
    ensures { IfOk result (λ answered. (answered ≡ Answered.Told) × (string_bytes reply.new.text ≡ refused bad_line)) }
{
    reply.refuse(BAD_LINE)?;
    Ok(Answered::Told)
}

/// In a function of its own, since an assignment drops the old value.
fn put(reply: &mut Reply, text: Reply)
    ensures { reply.new ≡ text }
{
    *reply = text;
}
