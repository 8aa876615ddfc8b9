//! The texts that a pool has of a heap's values.
ghost use Rattle.std.specs.Prelude.{◌≡◌, ℕ, List};
ghost use Rattle.elem_core.specs.Cell.{IsCell};

use elem_core::Stored;

/// Says the texts of a heap's values, each of which is a cell.
pub trait CellTexts<T> {
    ghost bytes_of: { T → List ℕ };

    /// The text of the value.
    fn text_of(value: &T) -> &str
        ensures shown { result.now ≡ bytes_of value.now }
        ensures cell { IsCell result.now };
}

/// The texts that stored values have of their own.
pub struct OwnTexts;

impl<T: Stored> CellTexts<T> for OwnTexts {
    ghost bytes_of = { T.bytes_of };

    fn text_of(value: &T) -> &str {
        value.text()
    }
}
