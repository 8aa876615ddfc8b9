//! What changes lines.
ghost use Rattle.std.specs.Prelude.{◌≡◌, ℕ, ◌+◌, ◌<◌, ◌^◌, List, IfOk};
ghost use Rattle.std.specs.String.{string_bytes};

use elem_core::NoMemory;
use std::alloc::Global;

/// What changes lines, one at a time.
pub trait Change {
    // How many calls there were.
    ghost asked: { Self → ℕ };

    // What a text becomes.
    ghost image: { Self → List ℕ → List ℕ };

    /// The text that the old one becomes. The call counts, and what a text becomes stays the same.
    fn change(&mut self, alloc: Global, old: &str) -> Result<String, NoMemory>
        requires few { asked self.old + 1 < 2 ^ 63 }
        ensures asked { asked self.new ≡ asked self.old + 1 }
        ensures same { (text : List ℕ) → image self.new text ≡ image self.old text }
        ensures image { IfOk result (λ text. string_bytes text ≡ image self.old old.now) };
}
