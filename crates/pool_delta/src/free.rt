//! The places of a chain's rows that are free: for each row, with its links, a stack of them.
ghost use Rattle.std.specs.Prelude.{◌≡◌, ℕ, List, [], map, IfOk};
ghost use Rattle.node_heap.specs.Forms.{Form, node};
ghost use Rattle.pool_text.specs.Rows.{Bytes, row_form};
ghost use Rattle.pool_delta.specs.Free.{key_form, kind_form, AreFree, Puts, Takes};

use elem_core::NoMemory;
use indexmap::IndexMap;
use pool_text::Row;
use std::alloc::Global;

// A row's form and its links, by which equal rows are found.
#[derive(PartialEq, Eq, Hash, Drop)]
pub(crate) enum RowKey {
    Cell(String),
    Node(NodeKind, Vec<u64>),
}

// The form of a node without its links.
#[derive(Clone, Copy, PartialEq, Eq, Hash)]
pub(crate) enum NodeKind {
    Leaf,
    Inner(u8),
    Trie(u8, u32, u32),
    Chain,
    Pair,
    State,
}

// The free places of each row, the smallest on top. Equal rows have one stack.
#[derive(Drop)]
pub(crate) struct FreePlaces {
    stacks: IndexMap<RowKey, Vec<u64>>,
}

impl FreePlaces {
    // All places of these rows. It takes time and memory for the rows, their links and their texts.
    pub(crate) fn of(alloc: Global, rows: &[Row]) -> Result<FreePlaces, NoMemory>
        ensures { IfOk result (AreFree (map row_form rows.now) []) }
    {
        let mut free = FreePlaces {
            stacks: IndexMap::new(alloc),
        };
        // The last first, so that the first comes out first.
        for place in (0..rows.len()).rev() {
            free.put(alloc, key_of(alloc, &rows[place])?, place as u64)?;
        }
        Ok(free)
    }

    // Puts a place onto the stack of its row.
    fn put(&mut self, alloc: Global, key: RowKey, place: u64) -> Result<(), NoMemory>
        ensures { IfOk result (λ _. Puts self.old key place self.new) }
    {
        if let Some(stack) = self.stacks.get_mut(&key) {
            stack.push(place)?;
            return Ok(());
        }
        let mut stack = Vec::with_capacity(alloc, 1)?;
        stack.push(place)?;
        self.stacks.insert(key, stack)?;
        Ok(())
    }

    // Takes the first free place of a row like this, if there is one.
    pub(crate) fn take(&mut self, key: &RowKey) -> Option<u64>
        ensures { (rows : List (Form Bytes)) (taken : List ℕ) → AreFree rows taken self.old → Takes rows taken (key_form key.now) self.new result }
    {
        match self.stacks.get_mut(key) {
            Some(stack) => stack.pop(),
            None => None,
        }
    }
}

// The key of a row. It copies the row's links and text.
pub(crate) fn key_of(alloc: Global, row: &Row) -> Result<RowKey, NoMemory>
    ensures { IfOk result (λ key. key_form key ≡ row_form row.now) }
{
    Ok(match row {
        Row::Cell(text) => RowKey::Cell(String::from_str(alloc, text.as_str())?),
        Row::Leaf(links) => node_key(alloc, NodeKind::Leaf, links.as_slice())?,
        Row::Inner(height, links) => {
            node_key(alloc, NodeKind::Inner(*height), links.as_slice())?
        }
        Row::Trie {
            depth,
            entries,
            nodes,
            links,
        } => node_key(
            alloc,
            NodeKind::Trie(*depth, *entries, *nodes),
            links.as_slice(),
        )?,
        Row::Chain(links) => node_key(alloc, NodeKind::Chain, links.as_slice())?,
        Row::Pair(key, value) => node_key(alloc, NodeKind::Pair, &[*key, *value])?,
        Row::State(buffers, stars) => node_key(alloc, NodeKind::State, &[*buffers, *stars])?,
    })
}

fn node_key(alloc: Global, kind: NodeKind, links: &[u64]) -> Result<RowKey, NoMemory>
    ensures { IfOk result (λ key. key_form key ≡ node (kind_form kind) links.now) }
{
    Ok(RowKey::Node(kind, Vec::from_slice(alloc, links)?))
}
