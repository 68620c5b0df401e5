// What the words ask for beside the questions that clap reads: questions in words, and the viewer.
ghost use Rattle.std.specs.Prelude.{map, IfOk, List, string_bytes};
ghost use Rattle.clap.specs.Words.{Text};
ghost use Rattle.graph_run.specs.Wanted.{IsWanted};

use crate::asked::{AskRefusal, Asked, asked_of};
use graph_follower::questions::{Question, QuestionFault};
use std::alloc::{AllocError, Global};

/// The first words of questions that are asked in words alone.
const HEADS: &[&str] = &[
    "--causes",
    "--item",
    "--show",
    "--explain",
    "--machines",
    "--machine",
    "--find",
    "--steps",
    "--threads",
    "--log",
];

/// A part of the viewer of pages.
#[derive(Clone, Copy, Debug, PartialEq, Eq)]
pub enum Part {
    Script,
    Style,
}

/// A question in words, as a follower is asked them, of the book of a journal's file.
#[derive(Debug, Drop)]
pub struct Spoken {
    pub file: String,
    pub question: String,
    /// Whether the answer is to be JSON.
    pub is_json: bool,
}

/// What the words of the command line ask for.
#[derive(Debug, Drop)]
pub enum Wanted {
    /// What clap reads.
    Asked(Asked),
    Spoken(Spoken),
    /// The text of a part of the viewer.
    Viewer(Part),
}

/// What these words ask for, the first of which is the program's own name.
///
/// A file and words that begin with one of HEADS, that have `--json`, or that are a list with more words, are a question: its words
/// without dashes. All others are as [`asked_of`] reads them.
///
/// # Errors
///
/// As [`asked_of`]; `Usage` if the words are no question that a follower answers.
pub fn wanted_of(alloc: Global, words: &[String]) -> Result<Wanted, AskRefusal>
    ensures { IfOk result (IsWanted (map string_bytes words.now)) }
{
    match words {
        [_program, viewer, part] if viewer.as_str() == "--viewer" => part_of(part.as_str()),
        [_program, file, rest @ ..] if is_file(file.as_str()) && is_spoken(rest) => {
            spoken_of(alloc, file.as_str(), rest)
        }
        _ => match asked_of(alloc, words) {
            Ok(asked) => Ok(Wanted::Asked(asked)),
            Err(refusal) => Err(refusal),
        },
    }
}

fn part_of(part: &str) -> Result<Wanted, AskRefusal>
    ensures { IfOk result (λ wanted. (words : List Text) → IsWanted words wanted) }
{
    match part {
        "script" => Ok(Wanted::Viewer(Part::Script)),
        "style" => Ok(Wanted::Viewer(Part::Style)),
        _ => Err(AskRefusal::Usage),
    }
}

fn is_file(word: &str) -> bool {
    !word.starts_with("-")
}

/// Whether the words behind a file are a question in words.
fn is_spoken(words: &[String]) -> bool {
    match words {
        [] => false,
        [head, rest @ ..] => {
            has_json(words)
                || is_head(head.as_str())
                || head.as_str() == "--list" && !rest.is_empty()
        }
    }
}

fn has_json(words: &[String]) -> bool {
    for word in words {
        if word.as_str() == "--json" {
            return true;
        }
    }
    false
}

fn is_head(word: &str) -> bool {
    for head in HEADS {
        if word == *head {
            return true;
        }
    }
    false
}

fn spoken_of(alloc: Global, file: &str, words: &[String]) -> Result<Wanted, AskRefusal>
    ensures { IfOk result (λ wanted. (words : List Text) → IsWanted words wanted) }
{
    let question = text_of(alloc, words)?;
    match Question::read(alloc, question.as_str()) {
        Ok(read) => drop(read),
        Err(QuestionFault::NoQuestion) => {
            drop(question);
            return Err(AskRefusal::Usage);
        }
        Err(QuestionFault::Memory) => {
            drop(question);
            return Err(AskRefusal::Memory);
        }
    }
    Ok(Wanted::Spoken(Spoken {
        file: String::from_str(alloc, file)?,
        question,
        is_json: has_json(words),
    }))
}

/// The words of a question without their dashes and without `--json`, a blank between each two.
fn text_of(alloc: Global, words: &[String]) -> Result<String, AllocError> {
    let mut text = String::new(alloc);
    for word in words {
        if word.as_str() != "--json" {
            if !text.is_empty() {
                text.push_str(" ")?;
            }
            text.push_str(bare(word.as_str()))?;
        }
    }
    Ok(text)
}

/// A word without two dashes before it.
fn bare(word: &str) -> &str {
    match word.strip_prefix("--") {
        Some(bare) => bare,
        None => word,
    }
}
