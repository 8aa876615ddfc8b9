//! The rows of a carried pool, in the order in which they are made.
ghost use Rattle.std.specs.Prelude.{◌≡◌, ℕ, ◌<◌, ◌++◌, [], ◌∷◌, length, map, false, slice_get, Some, option_to_list, IfOk, OnOk};
ghost use Rattle.node_heap.specs.Links.{count};
ghost use Rattle.node_heap.specs.Forms.{links_of};
ghost use Rattle.pool_text.specs.Rows.{row_form};
ghost use Rattle.pool_carry.specs.Carried.{is_of_trie};
ghost use Rattle.pool_carry.specs.Making.{forms_made, trie_row_form, AreMade, IsBegun};

use elem_core::NoMemory;
use indexmap::IndexMap;
use pool_text::{Places, Row, Rows};
use std::alloc::Global;

// A row of a trie that is made.
#[derive(PartialEq, Eq, Hash, Drop)]
pub(crate) enum MadeRow {
    // Its two sets of positions, and its links: the entries, and then the rows below.
    Trie {
        depth: u8,
        entries: u32,
        nodes: u32,
        links: Vec<u64>,
    },
    // An entry, and the rest of its chain, if any.
    Chain(u64, Option<u64>),
}

// The rows that were made so far, each after those that it links to. A link is the place of a row. No row of a trie stands
// twice: the table tells where each stands.
#[derive(Drop)]
pub(crate) struct MadeRows {
    rows: Vec<Row>,
    places: IndexMap<MadeRow, u64>,
}

impl MadeRows {
    // No rows, with room for so many.
    pub(crate) fn with_capacity(alloc: Global, count: usize) -> Result<MadeRows, NoMemory>
        ensures made { IfOk result AreMade }
        ensures none { IfOk result (λ made. forms_made made ≡ []) }
    {
        Ok(MadeRows {
            rows: Vec::with_capacity(alloc, count)?,
            places: IndexMap::new(alloc),
        })
    }

    // Makes a row that is none of a trie, apart from all others, and answers its place.
    pub(crate) fn add_own(&mut self, row: Row) -> Result<u64, NoMemory>
        requires own { is_of_trie (Some (row_form row)) ≡ false }
        requires linked { (k : ℕ) → 0 < count k (links_of (Some (row_form row))) → k < length (forms_made self.old) }
        requires made { AreMade self.old }
        ensures made { OnOk result (AreMade self.new) }
        ensures place { IfOk result (λ place. place ≡ length (forms_made self.old)) }
        ensures rows { OnOk result (forms_made self.new ≡ forms_made self.old ++ row_form row ∷ []) }
    {
        let place = self.rows.len() as u64;
        self.rows.push(row)?;
        Ok(place)
    }

    // The place of a row of a trie, which is made where it isn't there yet.
    pub(crate) fn add_trie_row(&mut self, alloc: Global, row: MadeRow) -> Result<u64, NoMemory>
        requires linked { (k : ℕ) → 0 < count k (links_of (Some (trie_row_form row))) → k < length (forms_made self.old) }
        requires made { AreMade self.old }
        ensures made { OnOk result (AreMade self.new) }
        ensures more { OnOk result (IsBegun (forms_made self.old) (forms_made self.new)) }
        ensures row { IfOk result (λ place. slice_get (forms_made self.new) place ≡ Some (trie_row_form row)) }
    {
        if let Some(place) = self.places.get(&row) {
            return Ok(*place);
        }
        let place = self.rows.len() as u64;
        self.rows.push(row_of(alloc, &row)?)?;
        self.places.insert(row, place)?;
        Ok(place)
    }

    // The rows, as a list.
    pub(crate) fn into_rows(self) -> Rows
        ensures { result ≡ forms_made self }
    {
        Rows::from_vec(self.rows)
    }
}

// The row of a trie as a pool's row.
fn row_of(alloc: Global, row: &MadeRow) -> Result<Row, NoMemory>
    ensures { IfOk result (λ r. row_form r ≡ trie_row_form row.now) }
{
    Ok(match row {
        MadeRow::Trie {
            depth,
            entries,
            nodes,
            links,
        } => Row::Trie {
            depth: *depth,
            entries: *entries,
            nodes: *nodes,
            links: Places::from_vec(Vec::from_slice(alloc, links.as_slice())?),
        },
        MadeRow::Chain(entry, rest) => Row::Chain(chain_links(alloc, *entry, *rest)?),
    })
}

// The links of a chain row.
fn chain_links(alloc: Global, entry: u64, rest: Option<u64>) -> Result<Places, NoMemory>
    ensures { IfOk result (λ p. p ≡ entry ∷ option_to_list rest) }
{
    let mut links = Vec::with_capacity(alloc, 2)?;
    links.push(entry)?;
    if let Some(next) = rest {
        links.push(next)?;
    }
    Ok(Places::from_vec(links))
}
