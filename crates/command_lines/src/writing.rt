// The one line of a command.
ghost use Rattle.std.specs.Prelude.{◌≡◌, Some, IfOk, string_bytes};
ghost use Rattle.command_lines.specs.Grammar as grammar;
ghost use Rattle.command_lines.specs.Grammar.{command_of};

use std::alloc::{AllocError, Global};
use step_names::ThreadName;

/// The line of a thread's step. Takes one block, of its length.
pub fn step_line(alloc: Global, thread: &ThreadName) -> Result<String, AllocError>
    ensures { IfOk result (λ line. command_of (string_bytes line) ≡ Some (grammar.step thread.now)) }
{
    let mut line = String::with_capacity(alloc, thread.text_len() + 5)?;
    line.push_str("step ")?;
    thread.write_to(&mut line)?;
    Ok(line)
}
