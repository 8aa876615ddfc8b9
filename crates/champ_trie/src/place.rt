//! Positions of a trie row.
ghost use Rattle.std.specs.Prelude.{◌≡◌, ◌+◌, ◌<◌, true, false};
ghost use Rattle.champ_trie.specs.Bits.{has, rank, GainsPosition};
ghost use Rattle.champ_trie.specs.Trie.{AreSets, place_of};

use node_heap::Link;

/// What stands at a position of a trie row.
#[derive(Clone, Copy)]
pub enum Place {
    /// Nothing.
    Empty,
    /// The only entry with the position's digit.
    Entry(Link),
    /// The row of the next depth, or the chain, of two entries or more.
    Node(Link),
}

/// Whether the position, below 32, is in the set, a number whose bits are its positions.
#[inline(always)]
pub fn contains(set: u32, position: u32) -> bool
    requires { position < 32 }
    ensures { result ≡ has set position }
{
    (set >> position) & 1 == 1
}

/// How many positions of the set are below this one, which is below 32.
#[inline(always)]
pub fn rank_of(set: u32, position: u32) -> u32
    requires { position < 32 }
    ensures { result ≡ rank set position }
{
    (set & ((1 << position) - 1)).count_ones()
}

/// The set with the position, below 32, which it hasn't.
pub fn with_position(set: u32, position: u32) -> u32
    requires position { position < 32 }
    requires free { has set position ≡ false }
    ensures { GainsPosition set result position }
{
    set | (1 << position)
}

/// The set without the position, below 32, which it has.
pub fn cleared(set: u32, position: u32) -> u32
    requires position { position < 32 }
    requires there { has set position ≡ true }
    ensures { GainsPosition result set position }
{
    set & !(1 << position)
}

/// Where the node at a position, below 32, stands among the links of a row with these sets: after all entries.
#[inline(always)]
pub fn node_index(entries: u32, nodes: u32, position: u32) -> usize
    requires { position < 32 }
    ensures { result ≡ rank entries 32 + rank nodes position }
{
    (entries.count_ones() + rank_of(nodes, position)) as usize
}

/// What stands at the position, below 32, of a row with these sets and links.
#[inline(always)]
pub fn place_among(entries: u32, nodes: u32, links: &[Link], position: u32) -> Place
    requires sets { AreSets entries nodes links.now }
    requires position { position < 32 }
    ensures { result ≡ place_of entries nodes links.now position }
{
    // A way down has more nodes than entries.
    if contains(nodes, position) {
        return Place::Node(links[node_index(entries, nodes, position)]);
    }
    if contains(entries, position) {
        return Place::Entry(links[rank_of(entries, position) as usize]);
    }
    Place::Empty
}
