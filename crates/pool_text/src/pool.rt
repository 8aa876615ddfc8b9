//! A pool and its rows.
ghost use Rattle.std.specs.Prelude.{◌≡◌, map};
ghost use Rattle.pool_text.specs.Rows.{row_form};

use crate::row::{Places, Row};
use std::marker::Model;

/// The rows of a pool by their places. Contracts see the form of each.
#[derive(Drop)]
pub struct Rows {
    items: Vec<Row>,
}

impl Model for Rows {
    ghost use Rattle.std.specs.Prelude.{List, map};
    ghost use Rattle.node_heap.specs.Forms.{Form};
    ghost use Rattle.pool_text.specs.Rows.{Bytes, row_form};

    ghost Value = { List (Form Bytes) };

    ghost view = { λ r. map row_form r.items.items };
}

impl Rows {
    /// These rows.
    pub fn from_vec(items: Vec<Row>) -> Rows
        ensures { result ≡ map row_form items.items }
    {
        Rows { items }
    }

    /// The rows in order.
    pub fn as_slice(&self) -> &[Row]
        ensures { map row_form result.now ≡ self.now }
    {
        self.items.as_slice()
    }

    /// The rows, given back.
    pub fn into_vec(self) -> Vec<Row>
        ensures { map row_form result.items ≡ self }
    {
        self.items
    }
}

/// Rows whose links are places, the places of the roots, the number of code bits kept, the version by whose rules they are
/// kept, and how many states undo keeps.
#[derive(Drop)]
pub struct Pool {
    /// How many low bits of the keys' codes its tries go by.
    pub bits: u32,
    /// The version by whose rules its tries stand, which is one that is read. It is no part of what the pool stands for.
    pub version: u32,
    /// How many states undo keeps at most. A document of a version that doesn't say it has the greatest, 4,294,967,295.
    pub history: u32,
    /// The rows, whose links are places in this list.
    pub rows: Rows,
    /// The places of the roots.
    pub roots: Places,
}
