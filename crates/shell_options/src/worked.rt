//! Worked lists of words, as facts: each function does nothing, and its contract is the fact.
ghost use Rattle.shell_options.specs.Worked.{WorkedOptions, WorkedValues, WorkedWords};

/// What lists of words ask for.
pub fn options()
    ensures { WorkedOptions }
{}

/// Lists with a value that doesn't read.
pub fn values()
    ensures { WorkedValues }
{}

/// Lists with a word that is no option, an option without a value, or options that don't go together.
pub fn words()
    ensures { WorkedWords }
{}
