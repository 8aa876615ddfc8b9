//! The values that the cells of a pool are made to.
ghost use Rattle.std.specs.Prelude.{◌≡◌, ℕ, List};
ghost use Rattle.std.specs.String.{string_bytes};
ghost use Rattle.elem_core.specs.Cell.{IsCell};

use elem_core::Stored;

/// Makes the values of a pool's cells, each of its place and its text.
pub trait CellValues<T> {
    ghost bytes_of: { T → List ℕ };

    ghost value_at: { Self → ℕ → List ℕ → T };

    /// The value of the cell at the place, whose text this is.
    fn value(&self, place: usize, text: String) -> T
        requires { IsCell (string_bytes text) }
        ensures kept { bytes_of result ≡ string_bytes text }
        ensures read { result ≡ value_at self.now place (string_bytes text) };
}

/// The values that stored texts have of their own, whatever their places.
pub struct OwnValues;

impl<T: Stored> CellValues<T> for OwnValues {
    ghost bytes_of = { T.bytes_of };

    ghost value_at = { λ _ _ text. T.of_bytes text };

    fn value(&self, _place: usize, text: String) -> T {
        match T::from_text(text) {
            Ok(value) => value,
            Err(_) => unreachable!(),
        }
    }
}
