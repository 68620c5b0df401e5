// What the words of the command line ask for.
ghost use Rattle.std.specs.Prelude.{◌≡◌, map, false, IfOk, IfErr, option_map, string_bytes};
ghost use Rattle.clap.specs.Words.{app_of, rule_of, kind_of};
ghost use Rattle.std.specs.IoError.{error_kind};
ghost use Rattle.rollback_run.specs.Words.{program, option_rule, unread_refusal, IsModeRefusedBy, NamesMode, NamesFile, RefusesMode, RefusesNamed};

use clap::error::ErrorKind;
use clap::{Arg, Command, Error};
use std::alloc::{AllocError, Global};
use std::io;

const ABOUT: &str =
    "Runs executions of state machines, and takes their steps back: a command a line. The command work takes steps by several workers at once, for hundreds of executions; which step is taken first is open. The command hold lets no new step build on a step and its consequences, while they are taken back one by one.";

/// As CHANGELOG.md counts them.
const VERSION: &str = "0.1.0";

const JOURNAL: &str = "journal";

const JOURNAL_HELP: &str = "Keep the accepted commands in this file";

const CHECK: &str = "check";

const CHECK_HELP: &str = "Only tell whether this file gives a book";

/// What is to be done.
#[derive(Debug, Drop)]
pub enum Mode {
    /// To serve on a journal in memory.
    InMemory,
    /// To serve on the journal of this file.
    Journal(String),
    /// To tell whether the journal of this file gives a book.
    Check(String),
}

/// Why there is nothing to be done.
#[derive(Debug, Drop)]
pub enum ModeRefusal {
    /// This text was asked for: the help, or the version.
    Shown(String),
    /// The words are none that are known.
    Usage,
    /// Memory was refused.
    Memory,
}

/// An option that takes a file.
fn option<'a>(alloc: Global, name: &'a str, help: &'a str) -> Arg<'a>
    ensures rule { rule_of result ≡ option_rule name.entry.now }
    ensures local { result.global ≡ false }
{
    Arg::new(alloc, name)
        .long(name)
        .value_name("FILE")
        .help(help)
}

fn command<'a>(alloc: Global) -> Result<Command<'a>, AllocError>
    ensures { IfOk result (λ c. app_of c ≡ program) }
{
    Command::new(alloc, "rollback")
        .version(VERSION)
        .about(ABOUT)
        .arg(option(alloc, JOURNAL, JOURNAL_HELP))?
        .arg(option(alloc, CHECK, CHECK_HELP))
}

/// How it is told that the words of the command line can't be had: want of memory by its own name, and else that they are none that are
/// known, as where one isn't UTF-8.
pub fn unread_words(error: &io::Error) -> ModeRefusal
    ensures { result ≡ unread_refusal (error_kind error.now) }
{
    match error.kind() {
        io::ErrorKind::OutOfMemory => ModeRefusal::Memory,
        _ => ModeRefusal::Usage,
    }
}

/// What these words ask for, the first of which is the program's own name.
///
/// # Errors
///
/// `Shown` where help or the version is asked for, `Usage` where both options are there or the words are refused for another cause, and
/// `Memory`.
pub fn mode_of(alloc: Global, words: &[String]) -> Result<Mode, ModeRefusal>
    ensures ok { IfOk result (NamesMode (map string_bytes words.now)) }
    ensures err { IfErr result (RefusesMode (map string_bytes words.now)) }
{
    match command(alloc) {
        Ok(command) => match command.try_get_matches_from(words) {
            Ok(matches) => named(alloc, matches.get_str(JOURNAL), matches.get_str(CHECK)),
            Err(error) => Err(refusal(alloc, &error)),
        },
        Err(AllocError) => Err(ModeRefusal::Memory),
    }
}

/// The mode that these values of the two options name.
fn named(alloc: Global, journal: Option<&str>, check: Option<&str>) -> Result<Mode, ModeRefusal>
    ensures ok { IfOk result (NamesFile (option_map (λ f. f.now) journal.entry) (option_map (λ f. f.now) check.entry)) }
    ensures err { IfErr result (RefusesNamed (option_map (λ f. f.now) journal.entry) (option_map (λ f. f.now) check.entry)) }
{
    match (journal, check) {
        (None, None) => Ok(Mode::InMemory),
        (Some(file), None) => match String::from_str(alloc, file) {
            Ok(file) => Ok(Mode::Journal(file)),
            Err(AllocError) => Err(ModeRefusal::Memory),
        },
        (None, Some(file)) => match String::from_str(alloc, file) {
            Ok(file) => Ok(Mode::Check(file)),
            Err(AllocError) => Err(ModeRefusal::Memory),
        },
        (Some(_), Some(_)) => Err(ModeRefusal::Usage),
    }
}

fn refusal(alloc: Global, error: &Error) -> ModeRefusal
    ensures { IsModeRefusedBy (kind_of error.now) result }
{
    match error.kind() {
        ErrorKind::DisplayHelp | ErrorKind::DisplayVersion => match format!(in alloc; "{error}") {
            Ok(text) => ModeRefusal::Shown(text),
            Err(_) => ModeRefusal::Memory,
        },
        ErrorKind::OutOfMemory => ModeRefusal::Memory,
        _ => ModeRefusal::Usage,
    }
}
