//! The rules of a document's version.
ghost use Rattle.std.specs.Prelude.{◌≡◌, ◌≤◌, option_map};
ghost use Rattle.pool_text.specs.Rules.{present_rules, rules_of, rules_named};

use elem_core::{Code, DEEPEST, fnv32, fnv64};

/// The first version of documents.
pub const FIRST_VERSION: u32 = 1;

/// The second version, whose documents don't say how many states undo keeps.
pub const SECOND_VERSION: u32 = 2;

/// The version of the documents that are written, and of the pools that are made.
pub const PRESENT_VERSION: u32 = 3;

/// The greatest bound of undo, which a document has that says none.
pub const MOST_HISTORY: u32 = u32::MAX;

/// The number of bits of a code by the rules of the first version, and so the most that a document of that version keeps.
pub const FIRST_CODE_BITS: u32 = 32;

/// The depth of a code's last digit by the rules of the first version.
pub const FIRST_DEEPEST: u8 = 6;

/// The rules of a version of documents: the codes of texts, and how deep tries go.
#[derive(Clone, Copy)]
pub enum Rules {
    /// Codes of 32 bits, whose last digit is at depth 6.
    First,
    /// Codes of 64 bits, whose last digit is at depth 12: also the rules of the third version, which says how many states undo keeps.
    Second,
}

impl Rules {
    /// The rules of a version, and none where documents of that version aren't read.
    pub fn of_version(version: u64) -> Option<Rules>
        ensures { option_map rules_named result ≡ rules_of version }
    {
        if version == FIRST_VERSION as u64 {
            Some(Rules::First)
        } else if version == SECOND_VERSION as u64 || version == PRESENT_VERSION as u64 {
            Some(Rules::Second)
        } else {
            None
        }
    }

    /// The rules by which pools are made.
    pub fn present() -> Rules
        ensures { rules_named result ≡ present_rules }
    {
        Rules::Second
    }

    /// The code of a text.
    pub fn code(self, text: &str) -> Code
        ensures { result ≡ (rules_named self).code_of text.now }
    {
        match self {
            Rules::First => Code::from(fnv32(text.as_bytes())),
            Rules::Second => fnv64(text.as_bytes()),
        }
    }

    /// The depth of a code's last digit, below which chains stand.
    pub fn deepest(self) -> u8
        ensures value { result ≡ (rules_named self).deepest }
        ensures low { result ≤ DEEPEST }
    {
        match self {
            Rules::First => FIRST_DEEPEST,
            Rules::Second => DEEPEST,
        }
    }
}
