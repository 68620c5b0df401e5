// A page for a browser, made of a follower's answers.
use crate::running::show_bytes;
use crate::telling::answers_behind;
use graph_follower::questions::Answer;
use graph_page::{PageParts, page_of};
use question_text::text_of;
use rollback_run::ExitFault;
use sqlite::{Alter, Connection, Error};
use std::alloc::{AllocError, Global};
use std::io::Write;
use std::sync::Wait;
use std::thread::Threads;
use step_names::StepName;

/// What shows a page, in JavaScript and CSS.
#[derive(Clone, Copy)]
pub struct Viewer<'a> {
    /// Parts that come one behind the other.
    pub script: &'a [&'static str],
    pub style: &'a [&'static str],
}

/// Of what a page is: the journal's name, and the step at which it opens.
#[derive(Clone, Copy)]
pub struct Subject<'a> {
    pub name: &'a str,
    pub from: Option<&'a StepName>,
}

/// Writes the page of the book of a journal, and says whether there is the step at which it is to open. The journal's lines stay as they
/// are. Takes what each of its lines takes, and memory for all remaining steps with their frames and items.
///
/// # Errors
///
/// As the journal gives no book, and if the output can't be written or memory is refused.
pub fn write_page<T: Threads + Wait + Sync, S: Alter + Drop, M: Alter + Drop, W: Write>(
    rt: &T,
    alloc: Global,
    subject: Subject<'_>,
    viewer: Viewer<'_>,
    file: Result<Connection<S>, Error>,
    memory: Result<Connection<M>, Error>,
    writer: &mut W,
) -> Result<bool, ExitFault> {
    match step_text(alloc, subject.from) {
        Ok(step) => {
            let step = step.as_deref();
            write_at(rt, alloc, subject.name, step, viewer, file, memory, writer)
        }
        Err(AllocError) => {
            drop(file);
            drop(memory);
            Err(ExitFault::Memory)
        }
    }
}

fn step_text(alloc: Global, step: Option<&StepName>) -> Result<Option<String>, AllocError> {
    match step {
        Some(step) => Ok(Some(step.write_text(alloc)?)),
        None => Ok(None),
    }
}

fn write_at<T: Threads + Wait + Sync, S: Alter + Drop, M: Alter + Drop, W: Write>(
    rt: &T,
    alloc: Global,
    name: &str,
    step: Option<&str>,
    viewer: Viewer<'_>,
    file: Result<Connection<S>, Error>,
    memory: Result<Connection<M>, Error>,
    writer: &mut W,
) -> Result<bool, ExitFault> {
    let question = match question_of(alloc, step) {
        Ok(question) => question,
        Err(AllocError) => {
            drop(file);
            drop(memory);
            return Err(ExitFault::Memory);
        }
    };
    // (the third asks for every step that may remain)
    let questions = ["list", "machines", "steps 0 65536", question.as_str()];
    match answers_behind(rt, alloc, questions.as_slice(), file, memory) {
        Ok(answers) => write_answers(alloc, name, step, viewer, answers.as_slice(), writer),
        Err(cause) => Err(cause),
    }
}

/// The question whose answer says whether there is this step; another one if none is named.
fn question_of(alloc: Global, step: Option<&str>) -> Result<String, AllocError> {
    let Some(step) = step else {
        return String::from_str(alloc, "machines");
    };
    let mut question = String::from_str(alloc, "show ")?;
    question.push_str(step)?;
    Ok(question)
}

/// Writes the page of these answers; if there isn't the step that was asked for, the sentence that says so.
fn write_answers<W: Write>(
    alloc: Global,
    name: &str,
    step: Option<&str>,
    viewer: Viewer<'_>,
    answers: &[Answer],
    writer: &mut W,
) -> Result<bool, ExitFault> {
    let [list, machines, steps, shown] = answers else {
        return Err(ExitFault::Memory);
    };
    if !shown.is_found {
        return write_sentence(alloc, shown, writer);
    }
    let parts = PageParts {
        name,
        show: step,
        list: &list.json,
        machines: &machines.json,
        steps: &steps.json,
        script: viewer.script,
        style: viewer.style,
    };
    match page_of(alloc, &parts) {
        Ok(page) => {
            show_bytes(page.as_slice(), b"", writer)?;
            Ok(true)
        }
        Err(AllocError) => Err(ExitFault::Memory),
    }
}

fn write_sentence<W: Write>(
    alloc: Global,
    absent: &Answer,
    writer: &mut W,
) -> Result<bool, ExitFault> {
    match text_of(alloc, "show", &absent.json) {
        Ok(lines) => {
            show_bytes(lines.as_bytes(), b"", writer)?;
            Ok(false)
        }
        Err(AllocError) => Err(ExitFault::Memory),
    }
}
