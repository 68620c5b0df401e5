#![tactic(auto)]

//! `rollback_graph`: answers questions about the dependences among the remaining steps of a journal.

mod picture;

use graph_run::{
    AskRefusal, Asked, ExitFault, Part, Question, Spoken, Subject, Viewer, Wanted, refuse, run,
    serve, show_parts, status_of, tell, unread_words, wanted_of, write_page,
};
use graph_viewer::{script_parts, style_parts};
use journal_copy::open_at;
use picture::{Making, Place, is_over, place_in};
use sqlite::{Connection, Error, ErrorCode, MemStore};
use std::alloc::{AllocError, Global};
use std::env;
use std::io::{BufReader, BufWriter, IsTerminal, Write};
use std::process::ExitCode;
use std::sync::Wait;
use std::thread::Threads;
use step_names::StepName;

/// The status of words that ask for nothing, as [`refuse`] answers it.
const USAGE: u8 = 2;

const JOURNAL_TEXT: &[u8] =
    b"rollback_graph: a picture isn't written over the journal that it is of\n";

const TERMINAL_TEXT: &[u8] =
    b"rollback_graph: a picture isn't written to a terminal: give -o FILE, or --force\n";

fn read_words(rt: &HostRuntime) -> Result<(Wanted, Place), AskRefusal> {
    let alloc = rt.alloc();
    let arguments = match env::args(rt) {
        Ok(arguments) => arguments,
        Err(error) => return Err(unread_words(&error)),
    };
    match arguments.collect::<Vec<String>>(alloc) {
        Ok(words) => wanted_at(alloc, words),
        Err(_) => Err(AskRefusal::Memory),
    }
}

fn wanted_at(alloc: Global, words: Vec<String>) -> Result<(Wanted, Place), AskRefusal> {
    let (words, place) = place_in(alloc, words)?;
    match wanted_of(alloc, words.as_slice()) {
        Ok(wanted) => Ok((wanted, place)),
        Err(refusal) => {
            drop(place);
            Err(refusal)
        }
    }
}

fn in_memory(rt: &HostRuntime) -> Result<Connection<MemStore>, Error> {
    match Connection::open_in_memory(rt.alloc()) {
        Ok(connection) => Ok(connection),
        Err(AllocError) => Err(Error::SqliteFailure(ErrorCode::OutOfMemory)),
    }
}

/// Follows standard input, behind the lines of a file if one is named.
fn run_served<T: Threads + Wait + Sync, W: Write>(
    rt: &HostRuntime,
    threads: &T,
    file: Option<&str>,
    writer: &mut W,
) -> Result<bool, ExitFault> {
    let file = match file {
        Some(file) => Some(open_at(rt, file)),
        None => None,
    };
    let Ok(mut reader) = BufReader::new(rt.alloc(), rt.stdin()) else {
        drop(file);
        return Err(ExitFault::Memory);
    };
    match serve(
        threads,
        rt.alloc(),
        file,
        in_memory(rt),
        &mut reader,
        writer,
    ) {
        Ok(()) => Ok(true),
        Err(cause) => Err(cause),
    }
}

/// Answers a question in words.
fn run_spoken<T: Threads + Wait + Sync, W: Write>(
    rt: &HostRuntime,
    threads: &T,
    spoken: &Spoken,
    writer: &mut W,
) -> Result<bool, ExitFault> {
    let file = open_at(rt, spoken.file.as_str());
    tell(threads, rt.alloc(), spoken, file, in_memory(rt), writer)
}

/// Writes a page of a file's journal.
fn run_page<T: Threads + Wait + Sync, W: Write>(
    rt: &HostRuntime,
    threads: &T,
    path: &str,
    from: Option<&StepName>,
    writer: &mut W,
) -> Result<bool, ExitFault> {
    let name = match path.rsplit_once('/') {
        Some((_folder, name)) => name,
        None => path,
    };
    let subject = Subject { name, from };
    let (script, style) = (script_parts(), style_parts());
    let viewer = Viewer {
        script: &script,
        style: &style,
    };
    let file = open_at(rt, path);
    write_page(
        threads,
        rt.alloc(),
        subject,
        viewer,
        file,
        in_memory(rt),
        writer,
    )
}

fn run_question<T: Threads + Wait + Sync, W: Write>(
    rt: &HostRuntime,
    threads: &T,
    asked: &Asked,
    writer: &mut W,
) -> Result<bool, ExitFault> {
    match asked {
        Asked::Question { file, question } => match question {
            Question::Lines(question) => {
                run(rt.alloc(), question, open_at(rt, file.as_str()), writer)
            }
            Question::Html(from) => { run_page(rt, threads, file.as_str(), from.as_ref(), writer) }
        },
        Asked::Serve { file } => run_served(rt, threads, file.as_deref(), writer),
    }
}

fn run_wanted<T: Threads + Wait + Sync, W: Write>(
    rt: &HostRuntime,
    threads: &T,
    wanted: &Wanted,
    writer: &mut W,
) -> Result<bool, ExitFault> {
    match wanted {
        Wanted::Asked(asked) => run_question(rt, threads, asked, writer),
        Wanted::Spoken(spoken) => run_spoken(rt, threads, spoken, writer),
        Wanted::Viewer(Part::Script) => show_parts(&script_parts(), writer),
        Wanted::Viewer(Part::Style) => show_parts(&style_parts(), writer),
    }
}

/// Writes a picture to a file. If there is none, standard output has the sentence that says why, and the file stays; one that is written in place
/// has the sentence.
fn run_to_file<T: Threads + Wait + Sync, W: Write>(
    rt: &HostRuntime,
    threads: &T,
    wanted: &Wanted,
    file: &str,
    writer: &mut W,
) -> Result<bool, ExitFault> {
    let Ok(making) = Making::new(rt, file) else {
        return Err(ExitFault::Memory);
    };
    let outcome = match making.open(rt) {
        Ok(file) => match BufWriter::new(rt.alloc(), file) {
            Ok(mut picture) => run_wanted(rt, threads, wanted, &mut picture),
            Err(_) => Err(ExitFault::Memory),
        },
        Err(_) => Err(ExitFault::Output),
    };
    match outcome {
        Ok(true) if making.keep(rt).is_ok() => Ok(true),
        Ok(true) => {
            making.drop_part(rt);
            Err(ExitFault::Output)
        }
        Ok(false) => {
            let sentence = making.sentence(rt);
            making.drop_part(rt);
            match sentence {
                Ok(sentence) => show_sentence(sentence.as_slice(), writer),
                Err(_) => Err(ExitFault::Output),
            }
        }
        Err(cause) => {
            making.drop_part(rt);
            Err(cause)
        }
    }
}

/// Writes why there is no picture.
fn show_sentence<W: Write>(sentence: &[u8], writer: &mut W) -> Result<bool, ExitFault> {
    match writer.write_all(sentence) {
        Ok(()) => match writer.flush() {
            Ok(()) => Ok(false),
            Err(_) => Err(ExitFault::Output),
        },
        Err(_) => Err(ExitFault::Output),
    }
}

/// The journal's file of which a picture is wanted.
fn journal_of(wanted: &Wanted) -> Option<&str> {
    match wanted {
        Wanted::Asked(Asked::Question { file, .. }) => Some(file.as_str()),
        _ => None,
    }
}

/// The status of what is wanted, written at its place.
fn status_at<T: Threads + Wait + Sync, W: Write>(
    rt: &HostRuntime,
    threads: &T,
    wanted: &Wanted,
    place: &Place,
    writer: &mut W,
) -> u8 {
    if let Some(file) = &place.file {
        if is_over(rt, file.as_str(), journal_of(wanted)) {
            // (there is no one else to whom it could be said)
            let _ = rt.stderr().write_all(JOURNAL_TEXT);
            return USAGE;
        }
        let outcome = run_to_file(rt, threads, wanted, file.as_str(), writer);
        return status_of(outcome, &mut rt.stderr());
    }
    if place.is_picture && !place.is_forced && rt.stdout().is_terminal() {
        // (there is no one else to whom it could be said)
        let _ = rt.stderr().write_all(TERMINAL_TEXT);
        return USAGE;
    }
    status_of(run_wanted(rt, threads, wanted, writer), &mut rt.stderr())
}

fn main(rt: HostRuntime) -> ExitCode {
    let status = match BufWriter::new(rt.alloc(), rt.stdout()) {
        Ok(mut writer) => match read_words(&rt) {
            Ok((wanted, place)) => status_at(&rt, &rt, &wanted, &place, &mut writer),
            Err(refusal) => refuse(refusal, &mut writer, &mut rt.stderr()),
        },
        Err(_) => refuse(AskRefusal::Memory, &mut rt.stdout(), &mut rt.stderr()),
    };
    ExitCode::from(status)
}
