// Lines that are still being counted.
ghost use Rattle.std.specs.Prelude.{◌≡◌, ℕ, List, ◌+◌, ◌<◌, ◌^◌, ◌∷◌, ◌++◌, [], ◌≤◌, string_bytes, string_len, OnOk, OnErr};
ghost use Rattle.step_names.specs.Written.{step_text};
ghost use Rattle.reply_lines.specs.Replying.{AreLines, has_room_for_line};

use std::alloc::{AllocError, Global};
use step_names::{LONGEST_STEP, StepName};

/// The lines of a reply that begins with their number, while they come one by one.
#[derive(Drop)]
pub struct Lines {
    pub(crate) count: u32,
    pub(crate) text: String,
}

impl Lines {
    /// No lines. Takes no memory.
    pub fn new(alloc: Global) -> Lines
        ensures lines { AreLines result [] }
        ensures count { result.count ≡ 0 }
    {
        Lines {
            count: 0,
            text: String::new(alloc),
        }
    }

    /// How many lines there are.
    pub fn count(&self) -> u32
        ensures { result ≡ self.now.count }
    {
        self.count
    }

    /// Makes room for the line of one step more.
    pub fn reserve_step(&mut self) -> Result<(), AllocError>
        ensures text { string_bytes self.new.text ≡ string_bytes self.old.text }
        ensures count { self.new.count ≡ self.old.count }
        ensures room { OnOk result (has_room_for_line self.new.text) }
    {
        self.text.reserve(LONGEST_STEP + 1)
    }

    /// Adds the line of a step. Takes memory only where no room was made.
    pub fn add_step(&mut self, step: &StepName) -> Result<(), AllocError>
        requires { self.old.count + 1 < 2 ^ 32 }
        ensures lines { OnOk result ((texts : List (List ℕ)) → AreLines self.old texts → AreLines self.new (texts ++ step_text step.now ∷ [])) }
        ensures count { OnOk result (self.new.count ≡ self.old.count + 1) }
        ensures longer { OnOk result (string_len self.new.text ≤ string_len self.old.text + 758) }
        ensures room { has_room_for_line self.old.text → OnErr result ⊥ }
    {
        self.text.reserve(step.text_len() + 1)?;
        step.write_to(&mut self.text)?;
        self.text.push_str("\n")?;
        self.count += 1;
        Ok(())
    }
}
