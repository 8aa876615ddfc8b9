//! What the stores keep: numbers and texts.
ghost use Rattle.std.specs.Prelude.{◌≡◌, IfOk};
ghost use Rattle.elem_core.specs.Shown.{line_bytes};

use elem_core::{Code, Element, Line, NoMemory, Text, fnv64, text_of};
use std::alloc::Global;
use std::cmp::Ordering;
use std::marker::Model;

/// A number or a text. All numbers come before all texts.
#[derive(Drop, PartialEq, Eq, PartialOrd, Ord)]
pub enum Value {
    /// A number.
    Number(u64),
    /// A text.
    Text(Word),
}

impl Element for Value {
    ghost use Rattle.std.specs.Prelude.{refl};
    ghost use Rattle.versions_c.specs.Values.{value_code};
    ghost use Rattle.versions_c.specs.Order.{value-codes};

    ghost code_of = { value_code };

    // A number is its own code.
    fn code(&self) -> Code {
        match self {
            Value::Number(number) => *number,
            Value::Text(word) => fnv64(word.text().as_bytes()),
        }
    }

    ghost equal_codes = { value-codes Self.cmp (record { numbers = λ a b. refl; before = λ a w. refl; after = λ v b. refl; texts = λ v w. refl }) };
}

/// A text that lies apart from the cell which has it, so that a cell with a number is small. Contracts see its bytes.
#[derive(Drop)]
pub struct Word {
    text: Box<Text>,
}

impl Model for Word {
    ghost use Rattle.std.specs.Prelude.{ℕ, List};

    ghost Value = { List ℕ };

    ghost view = { λ it. it.text.value };
}

impl Word {
    /// A copy of the line. Err where memory runs out.
    pub(crate) fn of(alloc: Global, line: Line<'_>) -> Result<Word, NoMemory>
        ensures { IfOk result (λ made. made ≡ line_bytes line.entry) }
    {
        let text = text_of(alloc, line)?;
        Ok(Word {
            text: Box::new(alloc, text)?,
        })
    }

    /// The text itself.
    pub(crate) fn text(&self) -> &str
        ensures { result.now ≡ self.now }
    {
        self.text.text()
    }
}

impl PartialEq for Word {
    ghost use Rattle.std.specs.Prelude.{nat_eq};
    ghost use Rattle.std.specs.Cmp as Cmp;
    ghost use Rattle.std.specs.Cmp.Lexicographic.{nat_list_eq_equiv};
    ghost use lib.Pointwise.{pointwise};

    ghost eq = { pointwise nat_eq };

    ghost laws = { Cmp.partial_equiv_from_equiv nat_list_eq_equiv };

    fn eq(&self, other: &Word) -> bool {
        self.text() == other.text()
    }
}

impl Eq for Word {
    ghost use Rattle.std.specs.Cmp.Lexicographic.{nat_list_eq_equiv};

    ghost laws = { nat_list_eq_equiv };
}

impl PartialOrd for Word {
    ghost use Rattle.std.specs.Prelude.{Some};
    ghost use Rattle.std.specs.Ordering.{nat_cmp};
    ghost use Rattle.std.specs.Cmp.Lexicographic.{slice_cmp, texts_po};

    ghost partial_cmp = { λ x y. Some (slice_cmp nat_cmp x y) };

    ghost laws = { texts_po };

    fn partial_cmp(&self, other: &Word) -> Option<Ordering> {
        Some(self.cmp(other))
    }
}

impl Ord for Word {
    ghost use Rattle.std.specs.Prelude.{refl};
    ghost use Rattle.std.specs.Ordering.{nat_cmp};
    ghost use Rattle.std.specs.Cmp.Lexicographic.{slice_cmp, nat_list_cmp_total, texts_ties};

    ghost cmp = { slice_cmp nat_cmp };

    ghost total = { nat_list_cmp_total };

    ghost matches_partial_cmp = { λ x y. refl };

    ghost matches_eq = { texts_ties };

    fn cmp(&self, other: &Word) -> Ordering {
        self.text().cmp(other.text())
    }
}
