// Lines that are being written.
ghost use Rattle.std.specs.Prelude.{◌≡◌, []};
ghost use Rattle.json_tree.specs.View.{data_of};
ghost use Rattle.json_tree.specs.Written.{text_of};
ghost use Rattle.question_text.specs.Writing.{WritesLines};

use json_tree::{Json, write_text};
use std::alloc::{AllocError, Global};

/// A text that is being written, in UTF-8. Each growth may be refused; what was written then stays.
#[derive(Drop)]
pub struct Lines {
    alloc: Global,
    pub(crate) bytes: Vec<u8>,
}

impl Lines {
    /// No text. Takes no memory.
    pub fn new(alloc: Global) -> Lines
        ensures { result.bytes.items ≡ [] }
    {
        Lines {
            alloc,
            bytes: Vec::new(alloc),
        }
    }

    /// The text so far.
    pub fn as_bytes(&self) -> &[u8]
        ensures { result.now ≡ self.now.bytes.items }
    {
        self.bytes.as_slice()
    }

    /// Adds a text as it is.
    pub fn add(&mut self, text: &str) -> Result<(), AllocError>
        ensures { WritesLines result self.old self.new text.now }
    {
        self.bytes.extend_from_slice(text.as_bytes())
    }

    /// Adds a value as JSON.
    pub(crate) fn value(&mut self, json: &Json) -> Result<(), AllocError>
        ensures { WritesLines result self.old self.new (text_of (data_of json.now)) }
    {
        let text = write_text(self.alloc, json)?;
        self.add(text.as_str())
    }

    /// Adds several texts as they are.
    pub(crate) fn all(&mut self, texts: &[&str]) -> Result<(), AllocError> {
        for text in texts {
            self.add(text)?;
        }
        Ok(())
    }

    /// Adds a number of things: `1 step`, `2 steps`.
    pub(crate) fn count(&mut self, number: i64, thing: &str) -> Result<(), AllocError> {
        self.value(&Json::Whole(number))?;
        self.all(&[" ", thing, if number == 1 { "" } else { "s" }])
    }
}
