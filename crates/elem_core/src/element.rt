//! What the containers ask of the values in their cells, and of the keys that look for them.

ghost use Rattle.std.specs.Prelude.{◌≡◌, ◌↔◌, ℕ, List, IsTrue, IsOk, IfOk, IfErr};
ghost use Rattle.std.specs.String.{string_bytes};
ghost use Rattle.std.specs.Ordering.{nat_cmp};
ghost use Rattle.std.specs.Cmp.Lexicographic.{slice_cmp};
ghost use Rattle.std.specs.declared.cmp.Ordering.TheVariants.{Equal};
ghost use Rattle.elem_core.specs.Cell.{IsCell};
ghost use Rattle.elem_core.specs.Codes.{text_code};

use super::codes::{Code, fnv64};
use super::text::Text;
use super::words::Name;
use std::cmp::Ordering;

/// A value that a cell may hold: ordered, with a code that equal values share.
pub trait Element: Eq + Ord + Drop {
    ghost code_of: { Self → ℕ };

    /// The code of the value.
    fn code(&self) -> Code
        ensures { result ≡ code_of self.now };

    ghost equal_codes: { (x y : Self) → Self.cmp x y ≡ Equal → code_of x ≡ code_of y };
}

/// An element that stands for its text: a document can keep the text in its place.
pub trait Stored: Element {
    ghost bytes_of: { Self → List ℕ };

    ghost of_bytes: { List ℕ → Self };

    /// The text of the value, which is a cell.
    fn text(&self) -> &str
        ensures shown { result.now ≡ bytes_of self.now }
        ensures cell { IsCell result.now };

    /// Whether the text is a cell.
    fn fits(text: &str) -> bool
        ensures { IsTrue result ↔ IsCell text.now };

    /// The value of the text. Err, with the text, exactly where it isn't a cell.
    fn from_text(text: String) -> Result<Self, String>
        ensures tested { IsOk result ↔ IsCell (string_bytes text) }
        ensures kept { IfOk result (λ value. bytes_of value ≡ string_bytes text) }
        ensures read { IfOk result (λ value. value ≡ of_bytes (string_bytes text)) }
        ensures given_back { IfErr result (λ back. back ≡ text) };

    ghost reads_back: { (x : Self) → of_bytes (bytes_of x) ≡ x };

    ghost text_order: { (x y : Self) → Self.cmp x y ≡ slice_cmp nat_cmp (bytes_of x) (bytes_of y) };

    ghost text_codes: { (x : Self) → Self.code_of x ≡ text_code (bytes_of x) };
}

/// What one can look for a value with: it stands for one value of `T`.
pub trait Probe<T: Element> {
    ghost stands_for: { Self → T };

    /// The code of that value.
    fn code(&self) -> Code
        ensures { result ≡ T.code_of (stands_for self.now) };

    /// The order of that value against another.
    fn order(&self, other: &T) -> Ordering
        ensures { result ≡ T.cmp (stands_for self.now) other.now };
}

/// Each value is a probe for itself.
impl<T: Element> Probe<T> for T {
    ghost stands_for = { λ x. x };

    fn code(&self) -> Code {
        Element::code(self)
    }

    fn order(&self, other: &T) -> Ordering {
        self.cmp(other)
    }
}

/// A number as an element, whose code is the number itself.
#[derive(Clone, Copy, Debug, PartialEq, Eq, PartialOrd, Ord)]
pub struct Num(pub u32);

impl Element for Num {
    ghost use Rattle.std.specs.FinMap.{nat_cmp-IsAntisymmetric};

    ghost code_of = { λ number. number.0 };

    fn code(&self) -> Code {
        u64::from(self.0)
    }

    ghost equal_codes = { λ x y same. nat_cmp-IsAntisymmetric x.0 y.0 same };
}

impl Element for Text {
    ghost use Rattle.std.specs.FinMap.{nat_cmp-IsAntisymmetric, slice_cmp-IsAntisymmetric};
    ghost use Rattle.std.proofs.Common.{ap};

    ghost code_of = { text_code };

    fn code(&self) -> Code {
        fnv64(self.text().as_bytes())
    }

    ghost equal_codes = { λ x y same. ap text_code (slice_cmp-IsAntisymmetric nat_cmp-IsAntisymmetric x y same) };
}

impl Stored for Text {
    ghost use Rattle.std.specs.Prelude.{refl};

    ghost bytes_of = { λ text. text };

    ghost of_bytes = { λ bytes. bytes };

    fn text(&self) -> &str {
        Text::text(self)
    }

    fn fits(text: &str) -> bool {
        super::words::Line::new(text).is_some()
    }

    fn from_text(text: String) -> Result<Text, String> {
        Text::new(text)
    }

    ghost reads_back = { λ x. refl };

    ghost text_order = { λ x y. refl };

    ghost text_codes = { λ x. refl };
}

/// A name looks for the text of the same bytes.
impl Probe<Text> for Name<'_> {
    ghost use Rattle.elem_core.specs.Shown.{name_bytes};

    ghost stands_for = { name_bytes };

    fn code(&self) -> Code {
        fnv64(self.as_str().as_bytes())
    }

    fn order(&self, other: &Text) -> Ordering {
        self.as_str().cmp(other.text())
    }
}
