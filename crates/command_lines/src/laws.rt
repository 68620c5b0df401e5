//! Laws over lines and commands: each function's contract is the laws, and it does nothing.

ghost use Rattle.command_lines.specs.GrammarLaws.{LineSaysOne, LineIsSpelled, LineIsRead};

/// How lines and commands belong together: a line is one command at most, and a command is exactly its one line.
pub fn lines_are_spelled()
    ensures one { LineSaysOne }
    ensures spelled { LineIsSpelled }
    ensures read { LineIsRead }
{}
