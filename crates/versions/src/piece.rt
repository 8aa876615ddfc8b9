//! What the cells of a store of maps hold: a key or a value.
ghost use Rattle.std.specs.Prelude.{◌≡◌, option_copied};
ghost use Rattle.versions.specs.Pieces.{piece_value};

use elem_core::{Code, Element, Probe};
use std::cmp::Ordering;

/// A key or a value. All keys come before all values.
#[derive(Drop, PartialEq, Eq, PartialOrd, Ord)]
pub enum Piece<K, V> {
    /// A key.
    Key(K),
    /// A value.
    Value(V),
}

impl<K, V> Piece<K, V> {
    /// The value, and none of a key.
    pub fn as_value(&self) -> Option<&V>
        ensures { option_copied result ≡ piece_value self.now }
    {
        match self {
            Piece::Key(_) => None,
            Piece::Value(value) => Some(value),
        }
    }
}

impl<K: Element, V: Ord + Drop> Element for Piece<K, V> {
    ghost use Rattle.std.specs.Prelude.{refl};
    ghost use Rattle.versions.specs.Pieces.{piece_code, piece-codes};

    ghost code_of = { piece_code K.code_of };

    // No value is looked for by its code.
    fn code(&self) -> Code {
        match self {
            Piece::Key(key) => key.code(),
            Piece::Value(_) => 0,
        }
    }

    ghost equal_codes = { piece-codes Self.cmp K.cmp V.cmp K.code_of (record { keys = λ a b. refl; before = λ a w. refl; after = λ v b. refl; values = λ v w. refl }) K.equal_codes };
}

/// Looks for a key as the probe does.
pub struct KeyOf<'p, P>(pub &'p P);

impl<P> Drop for KeyOf<'_, P> {
    fn drop(self) {
        let KeyOf(_) = self;
    }
}

impl<K: Element, V: Ord + Drop, P: Probe<K>> Probe<Piece<K, V>> for KeyOf<'_, P> {
    ghost use Rattle.versions.specs.declared.piece.Piece.TheVariants.{Key};

    ghost stands_for = { λ probe. Key (P.stands_for probe.0.now) };

    fn code(&self) -> Code {
        self.0.code()
    }

    fn order(&self, other: &Piece<K, V>) -> Ordering {
        match other {
            Piece::Key(key) => self.0.order(key),
            Piece::Value(_) => Ordering::Less,
        }
    }
}
