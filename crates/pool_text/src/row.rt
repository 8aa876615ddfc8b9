//! A row of a pool, and what it holds.
ghost use Rattle.std.specs.Prelude.{◌≡◌, ◌<◌, ◌+◌, ◌^◌, Some, slice_get, IfSome};
ghost use Rattle.std.specs.String.{string_bytes};
ghost use Rattle.node_heap.specs.Forms.{links_of};
ghost use Rattle.pool_text.specs.Rows.{row_form};

use std::marker::Model;

/// The text of a cell. Contracts see its bytes.
#[derive(Drop)]
pub struct PoolText {
    text: String,
}

impl Model for PoolText {
    ghost use Rattle.std.specs.Prelude.{List, ℕ};
    ghost use Rattle.std.specs.String.{string_bytes};

    ghost Value = { List ℕ };

    ghost view = { λ t. string_bytes t.text };
}

impl PoolText {
    /// This text.
    pub fn from_text(text: String) -> PoolText
        ensures { result ≡ string_bytes text }
    {
        PoolText { text }
    }

    /// The text itself.
    pub fn as_str(&self) -> &str
        ensures { result.now ≡ self.now }
    {
        &self.text
    }

    /// The text, given back.
    pub fn into_text(self) -> String
        ensures { string_bytes result ≡ self }
    {
        self.text
    }
}

/// Places of rows in a pool. Contracts see the list.
#[derive(Drop)]
pub struct Places {
    items: Vec<u64>,
}

impl Model for Places {
    ghost use Rattle.std.specs.Prelude.{List, ℕ};

    ghost Value = { List ℕ };

    ghost view = { λ p. p.items.items };
}

impl Places {
    /// These places.
    pub fn from_vec(items: Vec<u64>) -> Places
        ensures { result ≡ items.items }
    {
        Places { items }
    }

    /// The places in order.
    pub fn as_slice(&self) -> &[u64]
        ensures { result.now ≡ self.now }
    {
        self.items.as_slice()
    }
}

/// A row of a pool, whose links are the places of other rows.
#[derive(Drop)]
pub enum Row {
    /// A text.
    Cell(PoolText),
    /// A row of a vector at height 0: its links are elements.
    Leaf(Places),
    /// A row of a vector at a height of 1 to `MOST_HEIGHT`. Its sums aren't kept.
    Inner(u8, Places),
    /// A row of a trie. The two sets of positions are masks: position p is bit p.
    Trie {
        depth: u8,
        entries: u32,
        nodes: u32,
        links: Places,
    },
    /// An entry among those with one code, and the next such row, if any.
    Chain(Places),
    /// A key cell and a value.
    Pair(u64, u64),
    /// The map of buffers and the set of stars of a state.
    State(u64, u64),
}

/// The link at this index of the row, if it has so many.
pub fn link_at(row: &Row, index: usize) -> Option<u64>
    ensures link { result ≡ slice_get (links_of (Some (row_form row.now))) index }
    ensures fits { IfSome result (λ _. index + 1 < 2 ^ 64) }
{
    match row {
        Row::Cell(_) => None,
        Row::Leaf(links) | Row::Inner(_, links) | Row::Trie { links, .. } | Row::Chain(links) =>
            links.as_slice().get(index).copied(),
        Row::Pair(key, value) => [*key, *value].get(index).copied(),
        Row::State(buffers, stars) => [*buffers, *stars].get(index).copied(),
    }
}
