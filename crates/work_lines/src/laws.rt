//! Laws of the made lines: each function does nothing, and its contract is the law.
ghost use Rattle.work_lines.specs.Commands.{LinesMean};
ghost use Rattle.work_lines.specs.Worked.{WorkedLines};

/// Each line is a command that changes the space.
pub fn lines_are_commands()
    ensures { LinesMean }
{}

/// The first lines of seed 0, and the longest and the shortest of the kinds: a worked fact.
pub fn worked()
    ensures { WorkedLines }
{}
