// The name of an execution, as the names of its threads hold it.
ghost use Rattle.std.specs.Prelude.{◌≡◌, IfOk, string_bytes};

use json_tree::Text;
use std::alloc::AllocError;
use std::marker::Model;

/// The bytes of an execution's name, shared but where they were copied into a room.
#[derive(Debug, Drop)]
pub(crate) struct ExecName {
    inner: ExecBytes,
}

#[derive(Debug, Drop)]
enum ExecBytes {
    Shared(Text),
    Roomed(String),
}

impl Model for ExecName {
    ghost use Rattle.std.specs.Prelude.{List, ℕ};
    ghost use Rattle.step_names.specs.ExecView.{exec_bytes};

    ghost Value = { List ℕ };

    ghost view = { λ a. exec_bytes a.inner };
}

impl ExecName {
    pub(crate) fn shared(text: Text) -> ExecName
        ensures { result ≡ text }
    {
        ExecName {
            inner: ExecBytes::Shared(text),
        }
    }

    /// A name in a string that had room for it.
    pub(crate) fn roomed(string: String) -> ExecName
        ensures { result ≡ string_bytes string }
    {
        ExecName {
            inner: ExecBytes::Roomed(string),
        }
    }

    pub(crate) fn as_str(&self) -> &str
        ensures { result.now ≡ self.now }
    {
        match &self.inner {
            ExecBytes::Shared(text) => text.as_str(),
            ExecBytes::Roomed(string) => string.as_str(),
        }
    }

    /// The name, shared. Takes memory only for one of a room, of more than 22 bytes.
    pub(crate) fn share(&self) -> Result<Text, AllocError>
        ensures { IfOk result (λ t. t ≡ self.now) }
    {
        match &self.inner {
            ExecBytes::Shared(text) => text.copy(),
            ExecBytes::Roomed(string) => Text::new(*string.allocator(), string.as_str()),
        }
    }

    /// A copy, in the memory of `share`.
    pub(crate) fn copy(&self) -> Result<ExecName, AllocError>
        ensures { IfOk result (λ e. e ≡ self.now) }
    {
        Ok(ExecName::shared(self.share()?))
    }
}
