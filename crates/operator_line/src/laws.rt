//! A law over lines and their answers: the function's contract is the law, and it does nothing.

ghost use Rattle.operator_line.specs.LineLaws.{RefusedLinesChangeNothing};

/// A line whose reply begins with `no ` has changed nothing.
pub fn refused_lines_change_nothing()
    ensures { RefusedLinesChangeNothing }
{}
