//! What rows are made of: links, sums and heads.
ghost use Rattle.std.specs.Prelude.{◌≡◌, ◌≤◌, length};

use std::marker::Model;

/// Names a row of one heap by its place there, and means nothing in another heap.
#[derive(Clone, Copy, PartialEq, Eq, Hash, Default, Debug)]
pub struct Link {
    pub(crate) place: usize,
}

impl Model for Link {
    ghost use Rattle.std.specs.Prelude.{ℕ};

    ghost Value = { ℕ };

    ghost view = { λ l. l.place };

    ghost inverse = { λ n. record { place = n } };
}

/// The running sums of the lengths of an inner row's children, at most 32.
#[derive(Drop)]
pub struct Sums {
    items: [u32; 32],
    // How many of the items count.
    len: u8,
}

impl Model for Sums {
    ghost use Rattle.std.specs.Prelude.{ℕ, List, ◌≤◌, take};

    ghost Value = { List ℕ };

    ghost view = { λ s. take s.len s.items };

    ghost invariant = { λ s. s.len ≤ 32 };
}

impl Sums {
    /// These sums, at most 32.
    #[inline(always)]
    pub fn from_slice(items: &[u32]) -> Sums
        requires { length items.now ≤ 32 }
        ensures { result ≡ items.now }
    {
        let mut kept = [0; 32];
        kept[..items.len()].copy_from_slice(items);
        Sums {
            items: kept,
            len: items.len() as u8,
        }
    }

    /// The sums in order.
    #[inline(always)]
    pub fn as_slice(&self) -> &[u32]
        ensures value { result.now ≡ self.now }
        ensures short { length result.now ≤ 32 }
    {
        &self.items[..self.len as usize]
    }

    // The same sums.
    fn copy(&self) -> Sums
        ensures { result ≡ self.now }
    {
        Sums {
            items: self.items,
            len: self.len,
        }
    }
}

/// The greatest height of a row of a vector, whose leaves are at height 0.
pub const MOST_HEIGHT: u8 = 7;

/// What a node is, beside its links.
#[derive(Drop)]
pub enum Head {
    /// A row of a vector at height 0: its links are elements.
    Leaf,
    /// A row of a vector at a height of 1 to `MOST_HEIGHT`, with the running sums of its children's lengths, or with
    /// none where it keeps none.
    Inner { height: u8, sums: Sums },
    /// A row of a trie at a depth of 0 to `DEEPEST`. The two sets of positions are masks: position p is bit p. Its links
    /// are first the entries and then the nodes, each by rising position in its set.
    Trie { depth: u8, entries: u32, nodes: u32 },
    /// An entry among those with one code, and the link of the next such row, if any.
    Chain,
    /// A key cell and a value.
    Pair,
    /// Two parts of a state.
    State,
}

/// What a node is, by value and without its sums.
#[derive(Clone, Copy, PartialEq, Eq, Debug)]
pub enum Kind {
    /// A row of a vector at height 0.
    Leaf,
    /// A row of a vector at a height of 1 to `MOST_HEIGHT`.
    Inner { height: u8 },
    /// A row of a trie at a depth, with its two sets.
    Trie { depth: u8, entries: u32, nodes: u32 },
    /// An entry among those with one code.
    Chain,
    /// A key cell and a value.
    Pair,
    /// Two parts of a state.
    State,
}

/// The sets and the links of a row of a trie.
#[derive(Clone, Copy)]
pub struct TrieRef<'h> {
    pub entries: u32,
    pub nodes: u32,
    pub links: &'h [Link],
}

impl Head {
    ghost use Rattle.node_heap.specs.Forms.{kind_of, sums_of};
    ghost use Rattle.node_heap.specs.Reads.{kind_said};

    // The head without its sums.
    pub(crate) fn kind(&self) -> Kind
        ensures { kind_said result ≡ kind_of self.now }
    {
        match self {
            Head::Leaf => Kind::Leaf,
            Head::Inner { height, .. } => Kind::Inner { height: *height },
            Head::Trie {
                depth,
                entries,
                nodes,
            } => Kind::Trie {
                depth: *depth,
                entries: *entries,
                nodes: *nodes,
            },
            Head::Chain => Kind::Chain,
            Head::Pair => Kind::Pair,
            Head::State => Kind::State,
        }
    }

    // The sums of an inner row, and none of any other.
    pub(crate) fn sums(&self) -> &[u32]
        ensures { result.now ≡ sums_of self.now }
    {
        match self {
            Head::Inner { sums, .. } => sums.as_slice(),
            _ => &[],
        }
    }

    // The same head.
    pub(crate) fn copy(&self) -> Head
        ensures { result ≡ self.now }
    {
        match self {
            Head::Leaf => Head::Leaf,
            Head::Inner { height, sums } => Head::Inner {
                height: *height,
                sums: sums.copy(),
            },
            Head::Trie {
                depth,
                entries,
                nodes,
            } => Head::Trie {
                depth: *depth,
                entries: *entries,
                nodes: *nodes,
            },
            Head::Chain => Head::Chain,
            Head::Pair => Head::Pair,
            Head::State => Head::State,
        }
    }
}
