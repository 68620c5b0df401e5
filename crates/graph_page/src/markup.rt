// HTML that is being written.
ghost use Rattle.std.specs.Prelude.{◌≡◌, [], ◌∷◌, ◌++◌};
ghost use Rattle.base64.specs.Engines.{standard};
ghost use Rattle.base64.specs.GeneralPurpose.{encode_of};
ghost use Rattle.json_tree.specs.View.{data_of};
ghost use Rattle.json_tree.specs.Written.{text_of};
ghost use Rattle.graph_page.specs.Markup.{AddsMarkup, GrowsText};
ghost use Rattle.graph_page.specs.Quoting.{data_byte, data_text, html_byte, html_text};

use base64::engine::general_purpose::STANDARD;
use json_tree::{Json, write_text};
use sha2::{Digest, Sha256};
use std::alloc::{AllocError, Global};

/// HTML that is being written. Its tags are words of this program, which no journal has a part in; each text of a journal is
/// escaped. Each growth may be refused; what was written then stays.
#[derive(Drop)]
pub(crate) struct Markup {
    alloc: Global,
    pub(crate) bytes: Vec<u8>,
}

impl Markup {
    /// Nothing. Takes no memory.
    pub(crate) fn new(alloc: Global) -> Markup
        ensures { result.bytes.items ≡ [] }
    {
        Markup {
            alloc,
            bytes: Vec::new(alloc),
        }
    }

    /// What was written.
    pub(crate) fn into_bytes(self) -> Vec<u8>
        ensures { result ≡ self.bytes }
    {
        let Markup { alloc: _, bytes } = self;
        bytes
    }

    /// Adds words of the program as they are.
    pub(crate) fn tags(&mut self, words: &'static str) -> Result<(), AllocError>
        ensures { AddsMarkup result self.old self.new words.now }
    {
        self.bytes.extend_from_slice(words.as_bytes())
    }

    /// Adds several words of the program as they are, one behind the other.
    pub(crate) fn all_tags(&mut self, parts: &[&'static str]) -> Result<(), AllocError>
        ensures { GrowsText result self.old self.new }
    {
        for part in parts {
            self.tags(part)?;
        }
        Ok(())
    }

    /// Adds the SHA-256 digest of these words, one behind the other, in Base64, as a policy names a script or a style (Content Security
    /// Policy Level 3, section 2.3.1).
    pub(crate) fn digest(&mut self, parts: &[&'static str]) -> Result<(), AllocError>
        ensures { GrowsText result self.old self.new }
    {
        let mut hasher = Sha256::new();
        for part in parts {
            hasher.update(part.as_bytes());
        }
        self.base64(hasher.finalize().as_slice())
    }

    fn base64(&mut self, bytes: &[u8]) -> Result<(), AllocError>
        ensures { AddsMarkup result self.old self.new (encode_of standard bytes.now) }
    {
        let text = STANDARD.encode(self.alloc, bytes)?;
        self.bytes.extend_from_slice(text.as_bytes())
    }

    // ---- texts of a journal

    /// Adds a text, so that it neither begins nor ends a tag, nor ends the quotes that it is in.
    pub(crate) fn text(&mut self, text: &[u8]) -> Result<(), AllocError>
        ensures { AddsMarkup result self.old self.new (html_text text.now) }
    {
        for byte in text {
            self.html_byte(*byte)?;
        }
        Ok(())
    }

    fn html_byte(&mut self, byte: u8) -> Result<(), AllocError>
        ensures { AddsMarkup result self.old self.new (html_byte byte) }
    {
        match byte {
            b'&' => self.tags("&amp;"),
            b'<' => self.tags("&lt;"),
            b'>' => self.tags("&gt;"),
            b'"' => self.tags("&quot;"),
            other => self.byte(other),
        }
    }

    /// Adds a value as JSON, so that no tag begins in it.
    pub(crate) fn data(&mut self, json: &Json) -> Result<(), AllocError>
        ensures { AddsMarkup result self.old self.new (data_text (text_of (data_of json.now))) }
    {
        let text = write_text(self.alloc, json)?;
        self.data_bytes(text.as_bytes())
    }

    fn data_bytes(&mut self, text: &[u8]) -> Result<(), AllocError>
        ensures { AddsMarkup result self.old self.new (data_text text.now) }
    {
        for byte in text {
            self.data_byte(*byte)?;
        }
        Ok(())
    }

    fn data_byte(&mut self, byte: u8) -> Result<(), AllocError>
        ensures { AddsMarkup result self.old self.new (data_byte byte) }
    {
        match byte {
            b'<' => self.tags("\\u003c"),
            other => self.byte(other),
        }
    }

    fn byte(&mut self, byte: u8) -> Result<(), AllocError>
        ensures { AddsMarkup result self.old self.new (byte ∷ []) }
    {
        self.bytes.push(byte)?;
        Ok(())
    }
}
