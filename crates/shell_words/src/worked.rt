//! Worked lines: a function that does nothing, and its contract is the fact.
ghost use Rattle.shell_words.specs.Worked.{WorkedNames};

/// A name may have 64 bytes, and no more.
pub fn names()
    ensures { WorkedNames }
{}
