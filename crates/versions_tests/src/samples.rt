//! Texts and names for the tests of sets and of maps.
use elem_core::{Line, Name, Text, text_of};
use std::alloc::Global;
use std::process::Abort;

/// The text of this line.
pub fn text(rt: &impl Abort, alloc: Global, line: &str) -> Text {
    let line = Line::new(line).expect(rt, "a line");
    text_of(alloc, line).expect(rt, "memory")
}

/// The name of these letters.
pub fn name<'a>(rt: &impl Abort, letters: &'a str) -> Name<'a> {
    Name::new(letters).expect(rt, "a name")
}
