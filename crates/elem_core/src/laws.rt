//! What the definitions say of small texts, as the clause of a function that does nothing.
ghost use Rattle.elem_core.specs.Worked.{WorkedCodes};

/// The codes of small texts.
pub fn worked_codes()
    ensures { WorkedCodes }
{}
