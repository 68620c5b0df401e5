// What the words of the command line ask for.
ghost use Rattle.std.specs.Prelude.{◌≡◌, map, false, IfOk, IfErr, string_bytes};
ghost use Rattle.std.specs.IoError.{error_kind};
ghost use Rattle.clap.specs.Words.{app_of, rule_of, rows_of, found_of, kind_of};
ghost use Rattle.step_names.specs.Grammar.{read_step};
ghost use Rattle.graph_run.specs.Words.{graph_program, with_lines, with_pictures, file_rule, flag_rule, graph_option_rule, why_rule, graph_unread_refusal, IsAskRefusedBy, NamesAsked, RefusesAsked};
ghost use Rattle.graph_run.specs.Questions.{from_of, plan_of, why_of, list_question, dot_of, html_of, steps_of, pair_of, question_of, has_any, text_in, texts_in, GivesQuestion, IsAskedIn, IsAnsweredIn, IsQuestionIn, IsQuestionOf, IsServedIn, IsServeOf};

use clap::error::ErrorKind;
use clap::{Arg, ArgAction, ArgMatches, Command, Error};
use graph_text as texts;
use std::alloc::{AllocError, Global};
use std::io;
use step_names::{NameFault, StepName};

const ABOUT: &str =
    "Answers questions about a journal's book: on which steps the remaining ones depend and why, items, executions, and why one failed. It reads the journal of a file as rollback --check does, and changes nothing.

Besides the options below, these are questions, in lines or, with --json, as JSON (docs/QUESTIONS.md):
  FILE --causes STEP [--writes]       on which steps it depends
  FILE --item [KEY]                   who accessed an item; all items
  FILE --show NAME                    an execution, a thread or a step
  FILE --explain THREAD               why it failed, or why its next step would fail
  FILE --list --failed|--open|--done|--machine NAME|--since N
  FILE --threads ready|since N|THREAD where threads are
  FILE --find TEXT                    steps by name, state, error or key
  FILE --steps FROM COUNT, --log FROM COUNT, --machines, --machine NAME --definition
A picture, --dot or --html, goes to a file with -o FILE, and to a terminal with --force alone.
rollback_graph --viewer script|style writes what shows a page.";

/// As CHANGELOG.md counts them.
const VERSION: &str = "0.1.0";

const WHY_NAMES: &[&str] = &["STEP", "CONSEQUENCE"];

/// A question of the book of a journal.
#[derive(Debug, Drop)]
pub enum Question {
    /// What is answered in lines.
    Lines(texts::Question),
    /// The dependences as a page for a browser, which opens at a step if one is named.
    Html(Option<StepName>),
}

/// What is asked of the book of a journal's file.
#[derive(Debug, Drop)]
pub enum Asked {
    /// One question.
    Question { file: String, question: Question },
    /// To follow the lines of standard input, behind those of the file if one is named, and to answer the questions there.
    Serve { file: Option<String> },
}

/// Why nothing is asked.
#[derive(Debug, Drop)]
pub enum AskRefusal {
    /// This text was asked for: the help, or the version.
    Shown(String),
    /// The words are none that are known, or ask for nothing or too much.
    Usage,
    /// Memory was refused.
    Memory,
}

impl From<AllocError> for AskRefusal {
    fn from(_e: AllocError) -> AskRefusal {
        AskRefusal::Memory
    }
}

/// How it is told that the words of the command line can't be had.
pub fn unread_words(error: &io::Error) -> AskRefusal
    ensures { result ≡ graph_unread_refusal (error_kind error.now) }
{
    match error.kind() {
        io::ErrorKind::OutOfMemory => AskRefusal::Memory,
        _ => AskRefusal::Usage,
    }
}

/// What these words ask for, the first of which is the program's own name.
///
/// # Errors
///
/// `Shown` if help or the version is asked for, `Usage` if the words name no file, not just one question, or a step by no name of
/// one, or ask to serve and something else, and `Memory`.
pub fn asked_of(alloc: Global, words: &[String]) -> Result<Asked, AskRefusal>
    ensures ok { IfOk result (NamesAsked (map string_bytes words.now)) }
    ensures err { IfErr result (RefusesAsked (map string_bytes words.now)) }
{
    match command(alloc) {
        Ok(command) => match command.try_get_matches_from(words) {
            Ok(matches) => asked_in(alloc, &matches),
            Err(error) => Err(refusal(alloc, &error)),
        },
        Err(AllocError) => Err(AskRefusal::Memory),
    }
}

fn command<'a>(alloc: Global) -> Result<Command<'a>, AllocError>
    ensures { IfOk result (λ c. app_of c ≡ graph_program) }
{
    let command = Command::new(alloc, "rollback_graph")
        .version(VERSION)
        .about(ABOUT)
        .arg(file(alloc))?;
    with_pictures(alloc, with_lines(alloc, command)?)
}

/// With the questions that are answered in lines.
fn with_lines<'a>(alloc: Global, command: Command<'a>) -> Result<Command<'a>, AllocError>
    ensures { IfOk result (λ c. app_of c ≡ with_lines (app_of command.entry)) }
{
    command
        .arg(flag(
            alloc,
            "list",
            "List executions and threads, what each can do next, and the book's sizes",
        ))?
        .arg(option(
            alloc,
            "plan",
            "Tell what a rollback of this step would take back, why, and what it gives back",
        ))?
        .arg(pair(alloc))?
        .arg(flag(
            alloc,
            "serve",
            "Follow the accepted lines of standard input, and answer the questions there, in JSON",
        ))
}

/// With those that are answered with a picture.
fn with_pictures<'a>(alloc: Global, command: Command<'a>) -> Result<Command<'a>, AllocError>
    ensures { IfOk result (λ c. app_of c ≡ with_pictures (app_of command.entry)) }
{
    command
        .arg(flag(
            alloc,
            "dot",
            "Write the steps and their dependences as a graph for Graphviz",
        ))?
        .arg(flag(
            alloc,
            "html",
            "Write them as a page for a browser, with what each step changed",
        ))?
        .arg(option(
            alloc,
            "from",
            "Of a graph or a page, show this step, its consequences and what they hang on alone",
        ))
}

fn file<'a>(alloc: Global) -> Arg<'a>
    ensures rule { rule_of result ≡ file_rule }
    ensures local { result.global ≡ false }
{
    Arg::new(alloc, "file")
        .value_name("FILE")
        .help("The journal's file")
}

fn flag<'a>(alloc: Global, name: &'a str, help: &'a str) -> Arg<'a>
    ensures rule { rule_of result ≡ flag_rule name.entry.now }
    ensures local { result.global ≡ false }
{
    Arg::new(alloc, name)
        .long(name)
        .action(ArgAction::SetTrue)
        .help(help)
}

fn option<'a>(alloc: Global, name: &'a str, help: &'a str) -> Arg<'a>
    ensures rule { rule_of result ≡ graph_option_rule name.entry.now }
    ensures local { result.global ≡ false }
{
    Arg::new(alloc, name)
        .long(name)
        .value_name("STEP")
        .help(help)
}

fn pair<'a>(alloc: Global) -> Arg<'a>
    ensures rule { rule_of result ≡ why_rule }
    ensures local { result.global ≡ false }
{
    Arg::new(alloc, "why")
        .long("why")
        .num_args(2)
        .value_names(WHY_NAMES)
        .help("Tell why the second step is a consequence of the first")
}

/// What the values of a line ask for.
fn asked_in(alloc: Global, matches: &ArgMatches<'_>) -> Result<Asked, AskRefusal>
    ensures { IsAskedIn (rows_of (found_of matches.now)) result }
{
    if matches.get_flag("serve") {
        served_in(alloc, matches)
    } else {
        asked_of_file(alloc, matches)
    }
}

/// The question that the values of a line ask of a file's book.
fn asked_of_file(alloc: Global, matches: &ArgMatches<'_>) -> Result<Asked, AskRefusal>
    ensures { IsQuestionIn (rows_of (found_of matches.now)) result }
{
    match matches.get_str("file") {
        Some(file) => match question_in(alloc, matches) {
            Ok(question) => asked_by(alloc, file, question),
            Err(refusal) => Err(refusal),
        },
        None => Err(AskRefusal::Usage),
    }
}

fn asked_by(alloc: Global, file: &str, question: Question) -> Result<Asked, AskRefusal>
    ensures ok { IfOk result (λ asked. IsQuestionOf file.now question asked) }
    ensures err { IfErr result (λ refusal. refusal ≡ AskRefusal.Memory) }
{
    match String::from_str(alloc, file) {
        Ok(file) => Ok(Asked::Question { file, question }),
        Err(AllocError) => {
            drop(question);
            Err(AskRefusal::Memory)
        }
    }
}

/// The following that the values of a line ask for, if they ask nothing beside it.
fn served_in(alloc: Global, matches: &ArgMatches<'_>) -> Result<Asked, AskRefusal>
    ensures { IsServedIn (rows_of (found_of matches.now)) result }
{
    let flags = (
        matches.get_flag("list"),
        matches.get_flag("dot"),
        matches.get_flag("html"),
    );
    let plan = matches.get_str("plan");
    let why = matches.get_strs("why");
    let from = matches.get_str("from");
    if has_any(flags, plan, why, from) {
        return Err(AskRefusal::Usage);
    }
    served_by(alloc, matches.get_str("file"))
}

/// Whether one of these values is there.
fn has_any(
    flags: (bool, bool, bool),
    plan: Option<&str>,
    why: Option<&[&str]>,
    from: Option<&str>,
) -> bool
    ensures { result ≡ has_any flags.0 flags.1 flags.2 (text_in plan.entry) (texts_in why.entry) (text_in from.entry) }
{
    flags.0 || flags.1 || flags.2 || plan.is_some() || why.is_some() || from.is_some()
}

fn served_by(alloc: Global, file: Option<&str>) -> Result<Asked, AskRefusal>
    ensures ok { IfOk result (λ asked. IsServeOf (text_in file.entry) asked) }
    ensures err { IfErr result (λ refusal. refusal ≡ AskRefusal.Memory) }
{
    let Some(file) = file else {
        return Ok(Asked::Serve { file: None });
    };
    match String::from_str(alloc, file) {
        Ok(file) => Ok(Asked::Serve { file: Some(file) }),
        Err(AllocError) => Err(AskRefusal::Memory),
    }
}

/// The one question that the values of a line ask.
fn question_in(alloc: Global, matches: &ArgMatches<'_>) -> Result<Question, AskRefusal>
    ensures { IsAnsweredIn (rows_of (found_of matches.now)) result }
{
    let flags = (
        matches.get_flag("list"),
        matches.get_flag("dot"),
        matches.get_flag("html"),
    );
    let plan = matches.get_str("plan");
    let why = matches.get_strs("why");
    let from = matches.get_str("from");
    question_of(alloc, flags, plan, why, from)
}

/// The one question that these values ask: of `--list`, `--dot` and `--html`, and of `--plan`, `--why` and `--from`.
fn question_of(
    alloc: Global,
    flags: (bool, bool, bool),
    plan: Option<&str>,
    why: Option<&[&str]>,
    from: Option<&str>,
) -> Result<Question, AskRefusal>
    ensures { GivesQuestion result (question_of flags.0 flags.1 flags.2 (text_in plan.entry) (texts_in why.entry) (text_in from.entry)) }
{
    match flags {
        (true, false, false) => list_of(plan, why, from),
        (false, true, false) => dot_of(alloc, plan, why, from),
        (false, false, true) => html_of(alloc, plan, why, from),
        (false, false, false) => steps_of(alloc, plan, why, from),
        _ => Err(AskRefusal::Usage),
    }
}

fn list_of(
    plan: Option<&str>,
    why: Option<&[&str]>,
    from: Option<&str>,
) -> Result<Question, AskRefusal>
    ensures { GivesQuestion result (list_question (text_in plan.entry) (texts_in why.entry) (text_in from.entry)) }
{
    match (plan, why, from) {
        (None, None, None) => Ok(Question::Lines(texts::Question::List)),
        _ => Err(AskRefusal::Usage),
    }
}

fn dot_of(
    alloc: Global,
    plan: Option<&str>,
    why: Option<&[&str]>,
    from: Option<&str>,
) -> Result<Question, AskRefusal>
    ensures { GivesQuestion result (dot_of (text_in plan.entry) (texts_in why.entry) (text_in from.entry)) }
{
    match (plan, why) {
        (None, None) => match from_of(alloc, from) {
            Ok(from) => Ok(Question::Lines(texts::Question::Dot(from))),
            Err(refusal) => Err(refusal),
        },
        _ => Err(AskRefusal::Usage),
    }
}

fn html_of(
    alloc: Global,
    plan: Option<&str>,
    why: Option<&[&str]>,
    from: Option<&str>,
) -> Result<Question, AskRefusal>
    ensures { GivesQuestion result (html_of (text_in plan.entry) (texts_in why.entry) (text_in from.entry)) }
{
    match (plan, why) {
        (None, None) => match from_of(alloc, from) {
            Ok(from) => Ok(Question::Html(from)),
            Err(refusal) => Err(refusal),
        },
        _ => Err(AskRefusal::Usage),
    }
}

/// The question of one step's plan, or of why a step follows from another.
fn steps_of(
    alloc: Global,
    plan: Option<&str>,
    why: Option<&[&str]>,
    from: Option<&str>,
) -> Result<Question, AskRefusal>
    ensures { GivesQuestion result (steps_of (text_in plan.entry) (texts_in why.entry) (text_in from.entry)) }
{
    match (plan, why, from) {
        (Some(step), None, None) => plan_of(alloc, step),
        (None, Some(steps), None) => pair_of(alloc, steps),
        _ => Err(AskRefusal::Usage),
    }
}

fn pair_of(alloc: Global, steps: &[&str]) -> Result<Question, AskRefusal>
    ensures { GivesQuestion result (pair_of (map (λ step. step.now) steps.now)) }
{
    if steps.len() != 2 {
        return Err(AskRefusal::Usage);
    }
    why_of(alloc, steps[0], steps[1])
}

fn plan_of(alloc: Global, step: &str) -> Result<Question, AskRefusal>
    ensures { GivesQuestion result (plan_of step.now) }
{
    match step_of(alloc, step) {
        Ok(step) => Ok(Question::Lines(texts::Question::Plan(step))),
        Err(refusal) => Err(refusal),
    }
}

fn why_of(alloc: Global, first: &str, last: &str) -> Result<Question, AskRefusal>
    ensures { GivesQuestion result (why_of first.now last.now) }
{
    let from = match step_of(alloc, first) {
        Ok(from) => from,
        Err(refusal) => return Err(refusal),
    };
    match step_of(alloc, last) {
        Ok(to) => Ok(Question::Lines(texts::Question::Why(from, to))),
        Err(refusal) => {
            drop(from);
            Err(refusal)
        }
    }
}

/// The step of a picture, if one is named.
fn from_of(alloc: Global, from: Option<&str>) -> Result<Option<StepName>, AskRefusal>
    ensures { GivesQuestion result (from_of (text_in from.entry)) }
{
    match from {
        Some(step) => match step_of(alloc, step) {
            Ok(step) => Ok(Some(step)),
            Err(refusal) => Err(refusal),
        },
        None => Ok(None),
    }
}

fn step_of(alloc: Global, text: &str) -> Result<StepName, AskRefusal>
    ensures { GivesQuestion result (read_step text.now) }
{
    match StepName::read(alloc, text) {
        Ok(step) => Ok(step),
        Err(NameFault::BadName) => Err(AskRefusal::Usage),
        Err(NameFault::Memory) => Err(AskRefusal::Memory),
    }
}

fn refusal(alloc: Global, error: &Error) -> AskRefusal
    ensures { IsAskRefusedBy (kind_of error.now) result }
{
    match error.kind() {
        ErrorKind::DisplayHelp | ErrorKind::DisplayVersion => match format!(in alloc; "{error}") {
            Ok(text) => AskRefusal::Shown(text),
            Err(_) => AskRefusal::Memory,
        },
        ErrorKind::OutOfMemory => AskRefusal::Memory,
        _ => AskRefusal::Usage,
    }
}
