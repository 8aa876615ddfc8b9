//! The texts that cells own.

ghost use Rattle.std.specs.Prelude.{◌≡◌, ◌↔◌, ◌≤◌, length, IsOk, IfOk, IfErr};
ghost use Rattle.std.specs.String.{string_bytes};
ghost use Rattle.elem_core.specs.Cell.{IsCell};
ghost use Rattle.elem_core.specs.Shown.{line_bytes};

use super::kept::Kept;
use super::words::Line;
use super::{NoMemory, SHORT_TEXT};
use std::alloc::Global;
use std::cmp::Ordering;
use std::fmt;
use std::marker::Model;

/// A text that a cell owns: no newline, at most `MAX_LINE` bytes. Contracts see its bytes.
#[derive(Drop)]
pub struct Text {
    text: Kept,
}

impl Model for Text {
    ghost use Rattle.std.specs.Prelude.{ℕ, List};
    ghost use Rattle.elem_core.specs.Cell.{IsCell};
    ghost use Rattle.elem_core.specs.Kept.{kept_bytes};

    ghost Value = { List ℕ };

    ghost view = { λ it. kept_bytes it.text };

    ghost invariant = { λ it. IsCell (kept_bytes it.text) };
}

impl Text {
    /// Owns the text. Err, with the text, exactly where it isn't a cell.
    pub fn new(text: String) -> Result<Text, String>
        ensures tested { IsOk result ↔ IsCell (string_bytes text) }
        ensures kept { IfOk result (λ made. made ≡ string_bytes text) }
        ensures given_back { IfErr result (λ back. back ≡ text) }
    {
        if Line::new(&text).is_some() {
            Ok(Text {
                text: Kept::new(text),
            })
        } else {
            Err(text)
        }
    }

    /// The text itself.
    pub fn text(&self) -> &str
        ensures shown { result.now ≡ self.now }
        ensures cell { IsCell self.now }
    {
        self.text.as_str()
    }
}

impl fmt::Debug for Text {
    fn fmt<W: fmt::Write>(&self, f: &mut fmt::Formatter<W>) -> fmt::Result {
        fmt::Debug::fmt(self.text(), f)
    }
}

impl PartialEq for Text {
    ghost use Rattle.std.specs.Prelude.{nat_eq};
    ghost use Rattle.std.specs.Cmp as Cmp;
    ghost use Rattle.std.specs.Cmp.Lexicographic.{nat_list_eq_equiv};
    ghost use lib.Pointwise.{pointwise};

    ghost eq = { pointwise nat_eq };

    ghost laws = { Cmp.partial_equiv_from_equiv nat_list_eq_equiv };

    fn eq(&self, other: &Text) -> bool {
        self.text() == other.text()
    }
}

impl Eq for Text {
    ghost use Rattle.std.specs.Cmp.Lexicographic.{nat_list_eq_equiv};

    ghost laws = { nat_list_eq_equiv };
}

impl PartialOrd for Text {
    ghost use Rattle.std.specs.Prelude.{Some};
    ghost use Rattle.std.specs.Ordering.{nat_cmp};
    ghost use Rattle.std.specs.Cmp.Lexicographic.{slice_cmp, texts_po};

    ghost partial_cmp = { λ x y. Some (slice_cmp nat_cmp x y) };

    ghost laws = { texts_po };

    fn partial_cmp(&self, other: &Text) -> Option<Ordering> {
        Some(self.cmp(other))
    }
}

impl Ord for Text {
    ghost use Rattle.std.specs.Prelude.{refl};
    ghost use Rattle.std.specs.Ordering.{nat_cmp};
    ghost use Rattle.std.specs.Cmp.Lexicographic.{slice_cmp, nat_list_cmp_total, texts_ties};

    ghost cmp = { slice_cmp nat_cmp };

    ghost total = { nat_list_cmp_total };

    ghost matches_partial_cmp = { λ x y. refl };

    ghost matches_eq = { texts_ties };

    fn cmp(&self, other: &Text) -> Ordering {
        self.text().cmp(other.text())
    }
}

/// A copy of the line that a cell may own. Err where memory runs out, which a text of at most `SHORT_TEXT` bytes takes none of.
pub fn text_of(alloc: Global, line: Line<'_>) -> Result<Text, NoMemory>
    ensures kept { IfOk result (λ made. made ≡ line_bytes line.entry) }
    ensures short { length (line_bytes line.entry) ≤ SHORT_TEXT → IsOk result }
{
    let text = Kept::copy(alloc, line.as_str())?;
    Ok(Text { text })
}

/// Texts in their order, as the lines of a file. Contracts see the list of their bytes.
#[derive(Debug, Drop)]
pub struct Texts {
    lines: Vec<Text>,
}

impl Model for Texts {
    ghost use Rattle.std.specs.Prelude.{ℕ, List};

    ghost Value = { List (List ℕ) };

    ghost view = { λ it. it.lines.items };
}

impl Texts {
    /// The texts of the vector, which is kept as it is.
    pub fn from_vec(lines: Vec<Text>) -> Texts
        ensures { result ≡ lines.items }
    {
        Texts { lines }
    }

    /// The vector of the texts, as it was kept.
    pub fn into_vec(self) -> Vec<Text>
        ensures { result.items ≡ self }
    {
        let Texts { lines } = self;
        lines
    }
}
