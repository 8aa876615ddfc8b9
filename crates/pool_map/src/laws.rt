//! Laws of mapped pools, as the clauses of functions that do nothing.
ghost use Rattle.pool_map.specs.Laws.{MappedIsValid, MappedStands, MappedKeepsLines, LinesAreOfStates, IndentNeedsRoom, DedentKeepsLines};
ghost use Rattle.pool_map.specs.Worked.{WorkedMaps};

/// The mapped pool of a valid pool is valid.
pub fn mapped_is_valid()
    ensures { MappedIsValid }
{}

/// It stands for the pool's workspace with each line of each state changed.
pub fn mapped_stands()
    ensures { MappedStands }
{}

/// Two lines are one cell exactly where they were.
pub fn mapped_keeps_lines()
    ensures { MappedKeepsLines }
{}

/// The texts of the line cells are the lines of the states.
pub fn lines_are_of_states()
    ensures { LinesAreOfStates }
{}

/// So many spaces before each line make lines exactly where all lines of all states have room for them.
pub fn indent_needs_room()
    ensures { IndentNeedsRoom }
{}

/// Each line without the spaces that it begins with, or some of them, is a line.
pub fn dedent_keeps_lines()
    ensures { DedentKeepsLines }
{}

/// What small pools are with their lines changed.
pub fn worked_maps()
    ensures { WorkedMaps }
{}
