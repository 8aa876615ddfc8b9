//! Where the digits of a code lead.
ghost use Rattle.std.specs.Prelude.{List};
ghost use Rattle.node_heap.specs.Heap.{form_at, IsGraph};
ghost use Rattle.champ_chain.specs.Entry.{Entry};
ghost use Rattle.champ_trie.specs.Trie.{IsTrieOf, code_by};
ghost use Rattle.champ_trie.specs.Reach.{LeadsTo};

use crate::place::{Place, place_among};
use elem_core::{Code, Element, LEVELS, digit};
use node_heap::{Heap, Link};

// Where the digits of the code lead: to nothing, to an entry, or to the chain below the deepest row.
#[inline(always)]
pub(crate) fn reached<T: Element>(heap: &Heap<T>, root: Link, code: Code, bits: u32) -> Place
    requires trie { (E : List (Entry T)) × IsTrieOf T.cmp T.code_of bits heap.now root E }
    ensures graph { IsGraph heap.now }
    ensures place { (E : List (Entry T)) → IsTrieOf T.cmp T.code_of bits heap.now root E →
        LeadsTo (code_by T.code_of bits) T.cmp (form_at heap.now) E code result }
{
    heap.rows_form_a_graph();
    let mut link = root;
    for depth in 0..LEVELS {
        let row = heap.trie(link);
        match place_among(row.entries, row.nodes, row.links, digit(code, depth)) {
            Place::Empty => return Place::Empty,
            Place::Entry(entry) => return Place::Entry(entry),
            Place::Node(child) => link = child,
        }
    }
    Place::Node(link)
}
