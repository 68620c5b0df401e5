// A text that is being written.
ghost use Rattle.std.specs.Prelude.{◌≡◌, [], ◌∷◌, decimal};
ghost use Rattle.json_tree.specs.View.{data_of};
ghost use Rattle.json_tree.specs.Written.{quoted, text_of};
ghost use Rattle.step_names.specs.Written.{step_text, thread_text};
ghost use Rattle.graph_text.specs.Quoting.{dot_byte, dot_text};
ghost use Rattle.graph_text.specs.Writing.{WritesPage};

use itoa::Buffer;
use json_tree::{Json, Text, write_text};
use std::alloc::{AllocError, Global};
use step_names::{StepName, ThreadName};

/// A text that is being written, in UTF-8. Each growth may be refused; what was written then stays.
#[derive(Drop)]
pub struct Page {
    pub(crate) bytes: Vec<u8>,
}

impl Page {
    /// No text. Takes no memory.
    pub fn new(alloc: Global) -> Page
        ensures { result.bytes.items ≡ [] }
    {
        Page {
            bytes: Vec::new(alloc),
        }
    }

    /// The text so far.
    pub fn as_bytes(&self) -> &[u8]
        ensures { result.now ≡ self.now.bytes.items }
    {
        self.bytes.as_slice()
    }

    /// The text so far; an empty one if it isn't UTF-8, which it always is.
    pub(crate) fn as_text(&self) -> &str {
        match str::from_utf8(self.bytes.as_slice()) {
            Ok(text) => text,
            Err(_) => "",
        }
    }

    /// Adds a text as it is.
    pub fn word(&mut self, word: &str) -> Result<(), AllocError>
        ensures { WritesPage result self.old self.new word.now }
    {
        self.bytes.extend_from_slice(word.as_bytes())
    }

    /// Adds a number in digits.
    pub(crate) fn number(&mut self, number: u64) -> Result<(), AllocError>
        ensures { WritesPage result self.old self.new (decimal number) }
    {
        let mut digits = Buffer::new();
        self.word(digits.format(number))
    }

    /// Adds a number of things: `1 step`, `2 steps`.
    pub(crate) fn count(&mut self, number: u64, thing: &str) -> Result<(), AllocError> {
        self.number(number)?;
        self.word(" ")?;
        self.word(thing)?;
        self.word(if number == 1 { "" } else { "s" })
    }

    /// Adds the name of a step.
    pub(crate) fn step(&mut self, alloc: Global, step: &StepName) -> Result<(), AllocError>
        ensures { WritesPage result self.old self.new (step_text step.now) }
    {
        let text = step.write_text(alloc)?;
        self.word(text.as_str())
    }

    /// Adds the name of a thread.
    pub(crate) fn thread(&mut self, alloc: Global, thread: &ThreadName) -> Result<(), AllocError>
        ensures { WritesPage result self.old self.new (thread_text thread.now) }
    {
        let text = thread.write_text(alloc)?;
        self.word(text.as_str())
    }

    pub(crate) fn json(&mut self, alloc: Global, json: &Json) -> Result<(), AllocError>
        ensures { WritesPage result self.old self.new (text_of (data_of json.now)) }
    {
        let text = write_text(alloc, json)?;
        self.word(text.as_str())
    }

    /// Adds a text as a JSON text.
    pub(crate) fn quoted(&mut self, alloc: Global, text: &str) -> Result<(), AllocError>
        ensures { WritesPage result self.old self.new (quoted text.now) }
    {
        let text = Json::Text(Text::new(alloc, text)?);
        self.json(alloc, &text)
    }

    // ---- texts within quotes

    /// Adds a text so that it may be between the double quotes of a text of Graphviz.
    pub(crate) fn dot(&mut self, text: &str) -> Result<(), AllocError>
        ensures { WritesPage result self.old self.new (dot_text text.now) }
    {
        for byte in text.as_bytes() {
            self.dot_byte(*byte)?;
        }
        Ok(())
    }

    fn dot_byte(&mut self, byte: u8) -> Result<(), AllocError>
        ensures { WritesPage result self.old self.new (dot_byte byte) }
    {
        match byte {
            b'"' => self.word("\\\""),
            b'\\' => self.word("\\\\"),
            b'&' => self.word("&amp;"),
            other => self.byte(other),
        }
    }

    fn byte(&mut self, byte: u8) -> Result<(), AllocError>
        ensures { WritesPage result self.old self.new (byte ∷ []) }
    {
        self.bytes.push(byte)?;
        Ok(())
    }
}
