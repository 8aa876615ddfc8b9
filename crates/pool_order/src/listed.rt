//! The list of an order.
ghost use Rattle.std.specs.Prelude.{◌≡◌, length, slice_get, position, nat_eq};

use indexmap::IndexSet;
use node_heap::Link;
use std::marker::Model;

/// The links that some roots reach, each once, after those of its row.
#[derive(Drop)]
pub struct Order {
    pub(crate) links: IndexSet<Link>,
}

impl Model for Order {
    ghost use Rattle.std.specs.Prelude.{List, ℕ};

    ghost Value = { List ℕ };

    ghost view = { λ o. o.links.keys };
}

impl Order {
    /// How many links it has.
    pub fn len(&self) -> usize
        ensures { result ≡ length self.now }
    {
        self.links.len()
    }

    /// The link at a place, and none past the last.
    pub fn at(&self, place: usize) -> Option<Link>
        ensures { result ≡ slice_get self.now place }
    {
        self.links.get_index(place).copied()
    }

    /// The place of a link, and none where it isn't listed. It is one look-up.
    pub fn place(&self, link: Link) -> Option<usize>
        ensures { result ≡ position (nat_eq link) self.now }
    {
        self.links.get_index_of(&link)
    }
}
