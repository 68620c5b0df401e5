// Where a picture goes: to standard output, or to a file.
use graph_run::AskRefusal;
use std::alloc::{AllocError, Global};
use std::fs::{self, File};
use std::io;
use std::os::unix::fs::MetadataExt;

/// What is behind the name of a file until it is whole.
const PART: &str = ".part";

/// What is behind the name of a journal's file in that of its log.
const LOG: &str = "-wal";

/// What the words of the command line say of the place of a picture.
#[derive(Drop)]
pub(crate) struct Place {
    /// Whether a picture is asked for.
    pub(crate) is_picture: bool,
    /// The file of `-o`.
    pub(crate) file: Option<String>,
    /// Whether it may go to a terminal.
    pub(crate) is_forced: bool,
}

/// The words of the command line without `-o FILE` and `--force`, and what these say. Without a picture they are words like others.
///
/// # Errors
///
/// `Usage` if two files are named, or none behind `-o`; `Memory`.
pub(crate) fn place_in(
    alloc: Global,
    words: Vec<String>,
) -> Result<(Vec<String>, Place), AskRefusal> {
    let mut place = Place {
        is_picture: has_picture(words.as_slice()),
        file: None,
        is_forced: false,
    };
    if !place.is_picture {
        return Ok((words, place));
    }
    let mut rest = Vec::new(alloc);
    let mut is_file = false;
    for word in words {
        if is_file && place.file.is_none() {
            place.file = Some(word);
            is_file = false;
        } else if word.as_str() == "-o" {
            is_file = true;
        } else if word.as_str() == "--force" {
            place.is_forced = true;
        } else if rest.push(word).is_err() {
            return Err(AskRefusal::Memory);
        }
    }
    if is_file {
        return Err(AskRefusal::Usage);
    }
    Ok((rest, place))
}

fn has_picture(words: &[String]) -> bool {
    for word in words {
        if word.as_str() == "--dot" || word.as_str() == "--html" {
            return true;
        }
    }
    false
}

/// Whether a picture of this name would be written over a journal's file or its log, also for the time until it is whole; also if memory for their
/// names is refused.
pub(crate) fn is_over(rt: &HostRuntime, picture: &str, journal: Option<&str>) -> bool {
    let Some(journal) = journal else {
        return false;
    };
    let (Ok(part), Ok(log)) = (named(rt, picture, PART), named(rt, journal, LOG)) else {
        return true;
    };
    for name in [picture, part.as_str()] {
        if is_one(rt, name, journal) || is_one(rt, name, log.as_str()) {
            return true;
        }
    }
    false
}

/// A name with some letters more.
fn named(rt: &HostRuntime, name: &str, more: &str) -> Result<String, AllocError> {
    let mut longer = String::from_str(rt.alloc(), name)?;
    longer.push_str(more)?;
    Ok(longer)
}

/// Whether two names are one, or lead to one file.
fn is_one(rt: &HostRuntime, one: &str, other: &str) -> bool {
    if one == other {
        return true;
    }
    match (fs::metadata(rt, one), fs::metadata(rt, other)) {
        (Ok(one), Ok(other)) => one.dev() == other.dev() && one.ino() == other.ino(),
        _ => false,
    }
}

/// A file that is made: beside its place until it is whole, so that what is there stays if it can't be written. A device, a pipe or a
/// link is written in place.
#[derive(Drop)]
pub(crate) struct Making<'a> {
    path: &'a str,
    /// Its name until then.
    part: Option<String>,
}

impl<'a> Making<'a> {
    /// How a file of this name is made. Takes memory for a name.
    pub(crate) fn new(rt: &HostRuntime, path: &'a str) -> Result<Making<'a>, AllocError> {
        let is_special = match fs::symlink_metadata(rt, path) {
            Ok(found) => !found.is_file(),
            Err(_) => false,
        };
        if is_special {
            return Ok(Making { path, part: None });
        }
        Ok(Making {
            path,
            part: Some(named(rt, path, PART)?),
        })
    }

    /// Opens it for writing.
    pub(crate) fn open(&self, rt: &HostRuntime) -> io::Result<File> {
        match &self.part {
            Some(part) => File::create(rt, part.as_str()),
            None => File::create(rt, self.path),
        }
    }

    /// Puts it in its place.
    pub(crate) fn keep(&self, rt: &HostRuntime) -> io::Result<()> {
        match &self.part {
            Some(part) => fs::rename(rt, part.as_str(), self.path),
            None => Ok(()),
        }
    }

    /// What was written beside its place; nothing of a file that is written in place.
    pub(crate) fn sentence(&self, rt: &HostRuntime) -> io::Result<Vec<u8>> {
        match &self.part {
            Some(part) => fs::read(rt, part.as_str()),
            None => Ok(Vec::new(rt.alloc())),
        }
    }

    /// Takes away what is beside its place.
    pub(crate) fn drop_part(&self, rt: &HostRuntime) {
        if let Some(part) = &self.part {
            // (what can't be taken away stays)
            let _ = fs::remove_file(rt, part.as_str());
        }
    }
}
