//! What the tests of maps and sets share: texts and names, and a list of what was made.
ghost use Rattle.std.specs.Prelude.{◌≡◌, ◌++◌, [], ◌∷◌, IfOk, IsOk};

use elem_core::{Line, Name, Text, text_of};
use std::alloc::Global;
use std::process::Abort;

/// The text of this line.
pub fn text(rt: &impl Abort, alloc: Global, line: &str) -> Text {
    let line = Line::new(line).expect(rt, "a line");
    text_of(alloc, line).expect(rt, "memory")
}

/// The name of these letters.
pub fn name<'a>(rt: &impl Abort, letters: &'a str) -> Name<'a> {
    Name::new(letters).expect(rt, "a name")
}

/// Puts what a call made behind what was made before, and answers its turn.
pub fn kept<R: Copy, E: Drop>(rt: &impl Abort, things: &mut Vec<R>, made: Result<R, E>) -> usize
    ensures ok { IsOk made }
    ensures list { IfOk made (λ thing. things.new.items ≡ things.old.items ++ thing ∷ []) }
{
    match made {
        Ok(thing) => {
            things.push(thing).expect(rt, "memory");
            things.len() - 1
        }
        Err(_) => panic!(rt; "a call was refused"),
    }
}
