//! What lies of a node's head with its links: the whole of a head that says little, or where the head lies apart.
ghost use Rattle.std.specs.Prelude.{◌≡◌, ◌<◌, ℕ, [], Some, None};
ghost use Rattle.node_heap.specs.Tags.{plain_head, place_of, few_tag};
ghost use Rattle.node_heap.specs.declared.row.Head.TheVariants.{Inner};

use crate::rooms::SmallHead;
use crate::row::{Head, Sums};
use crate::slot_kinds::{LargeSlot, SmallSlot};
use std::marker::Model;
use std::mem::size_of;

// The height of an inner row, at most seven.
#[derive(Clone, Copy)]
pub(crate) struct Height {
    rows: u8,
}

impl Model for Height {
    ghost use Rattle.std.specs.Prelude.{ℕ, ◌<◌};

    ghost Value = { ℕ };

    ghost view = { λ h. h.rows };

    ghost inverse = { λ n. record { rows = n } };

    ghost invariant = { λ h. h.rows < 8 };
}

impl Height {
    #[inline(always)]
    fn of(rows: u8) -> Option<Height>
        ensures { (h : ℕ) → result ≡ Some h → h ≡ rows }
    {
        if rows < 8 {
            return Some(Height { rows });
        }
        None
    }

    pub(crate) fn rows(&self) -> u8
        ensures { result ≡ self.now }
    {
        self.rows
    }

    fn index(&self) -> usize
        ensures value { result ≡ self.now }
        ensures low { result < 8 }
    {
        self.rows as usize
    }
}

// A head that says little, or the place of one that says more.
#[derive(Clone, Copy)]
pub(crate) enum Tag {
    Leaf,
    // With no sums.
    Inner { height: Height },
    Chain,
    Pair,
    State,
    Apart { place: usize },
}

impl Tag {
    // Where the head lies apart, if it does.
    #[inline(always)]
    pub(crate) fn place(&self) -> Option<usize>
        ensures { result ≡ place_of self.now }
    {
        match self {
            Tag::Apart { place } => Some(*place),
            _ => None,
        }
    }
}

// The tag that says all of the head, and none where it says more.
#[inline(always)]
pub(crate) fn tag_of(head: &Head) -> Option<Tag>
    ensures { (t : Tag) → result ≡ Some t → plain_head t ≡ Some head.now }
{
    match head {
        Head::Leaf => Some(Tag::Leaf),
        Head::Inner { height, sums } => {
            if !sums.as_slice().is_empty() {
                return None;
            }
            match Height::of(*height) {
                Some(height) => Some(Tag::Inner { height }),
                None => None,
            }
        }
        Head::Trie { .. } => None,
        Head::Chain => Some(Tag::Chain),
        Head::Pair => Some(Tag::Pair),
        Head::State => Some(Tag::State),
    }
}

// The head of a node that is made with few links, and seldom gets more.
#[derive(Clone, Copy)]
pub(crate) enum FewHead {
    Chain,
    Pair,
    State,
}

impl SmallHead<Tag> for FewHead {
    ghost use Rattle.node_heap.specs.Tags.{few_tag};
    ghost use Rattle.node_heap.specs.declared.tags.Tag.TheVariants.{Leaf};

    ghost stands_for = { few_tag };

    ghost unread = { Leaf };

    fn widen(&self) -> Tag {
        match self {
            FewHead::Chain => Tag::Chain,
            FewHead::Pair => Tag::Pair,
            FewHead::State => Tag::State,
        }
    }
}

// The tag in a small slot, and none for one that lies in a large slot alone.
#[inline(always)]
pub(crate) fn few_head(tag: &Tag) -> Option<FewHead>
    ensures { (f : FewHead) → result ≡ Some f → few_tag f ≡ tag.now }
{
    match tag {
        Tag::Chain => Some(FewHead::Chain),
        Tag::Pair => Some(FewHead::Pair),
        Tag::State => Some(FewHead::State),
        _ => None,
    }
}

// So many links fit in a small slot with such a head.
pub(crate) const FEW_LINKS: usize = 2;

const _: () = prove!(size_of::<SmallSlot<FewHead, FEW_LINKS>>() <= 32);

// A head apart isn't in it.
const _: () = prove!(size_of::<LargeSlot<Tag>>() <= 288);

// The heads that are lent for tags that say all.
#[derive(Drop)]
pub(crate) struct Heads {
    leaf: Head,
    // One for each height, from 0 on.
    inner: [Head; 8],
    chain: Head,
    pair: Head,
    state: Head,
}

impl Model for Heads {
    ghost use Rattle.std.specs.Prelude.{⊤};
    ghost use Rattle.node_heap.specs.Tags.{AreHeads};

    ghost Value = { ⊤ };

    ghost view = { λ _. tt };

    ghost invariant = { λ h. AreHeads h.leaf h.inner h.chain h.pair h.state };
}

// The head of an inner row with no sums.
fn inner(height: u8) -> Head
    ensures { result ≡ Inner height [] }
{
    Head::Inner {
        height,
        sums: Sums::from_slice(&[]),
    }
}

impl Heads {
    pub(crate) fn new() -> Heads {
        Heads {
            leaf: Head::Leaf,
            inner: [
                inner(0),
                inner(1),
                inner(2),
                inner(3),
                inner(4),
                inner(5),
                inner(6),
                inner(7),
            ],
            chain: Head::Chain,
            pair: Head::Pair,
            state: Head::State,
        }
    }

    // The head that the tag says.
    pub(crate) fn lend(&self, tag: &Tag) -> &Head
        requires { place_of tag.now ≡ None }
        ensures { plain_head tag.now ≡ Some result.now }
    {
        match tag {
            Tag::Leaf => &self.leaf,
            Tag::Inner { height } => &self.inner[height.index()],
            Tag::Chain => &self.chain,
            Tag::Pair => &self.pair,
            Tag::State => &self.state,
            Tag::Apart { place: _ } => unreachable!(),
        }
    }
}
