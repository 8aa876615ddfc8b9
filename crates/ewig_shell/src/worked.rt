//! Worked lines: a function that does nothing, and its contract is the fact.
ghost use Rattle.ewig_shell.specs.Worked.{WorkedLines};

/// The longest line and the first that is too long, and the line that ends a run.
pub fn lines()
    ensures { WorkedLines }
{}
