//! Pairs of rows, whose common links have one owner for both. A row that is made of another by one change has all other links in common with it: the two are a pair
//! then, and each common link keeps one owner for both.
ghost use Rattle.std.specs.Prelude.{◌≡◌, ◌==◌, ◌⊎◌, ◌+◌, ◌-◌, ◌*◌, ◌^◌, ◌<◌, ◌≤◌, ℕ, [], length, Some, None, IsSome, IfSome, IfNone, OnOk, OnErr, IsOk, option_copied, option_map, slice_index, slice_index_or, slice_set, insert, remove};
ghost use Rattle.std.specs.List.{All};
ghost use Rattle.arrayvec.specs.ArrayVec.{array_vec_len};
ghost use Rattle.node_heap.specs.Links.{count, without, changed_links};
ghost use Rattle.node_heap.specs.Forms.{cell, node, links_of, value_of, head_of, kind_of, is_node};
ghost use Rattle.node_heap.specs.Heap.{row_limit};
ghost use Rattle.node_heap.specs.Reads.{kind_said, sums_in};
ghost use Rattle.node_heap.specs.Layout.{graph_of, slot_at, owners_in, places_at, rows_of_slots, filled_count, SetsOwners, Rewrites, PutsIn, KeepsRoom, IsDying, IsLow};
ghost use Rattle.node_heap.specs.Pairs.{common_at, paired, no_pair, own_in, IsOf, HasNoPair, LeavesPair, more, IsSharing, CountsAlike, GivesUp, MakesOf};
ghost use Rattle.node_heap.specs.declared.row.Head.TheVariants.{Trie};

use crate::entry::RowLinks;
use crate::row::{Head, Kind, Link, TrieRef};
use crate::table::Table;
use arrayvec::ArrayVec;
use std::alloc::{AllocError, Global};
use std::marker::Model;

// The most pairs at a time: they are looked through one by one.
const PAIRS: usize = 16;

// A row and another that was made of it by one change. Each without its own link, they have the same links.
#[derive(Clone, Copy, Default)]
pub(crate) struct Pair {
    before: Link,
    after: Link,
    // Where the own link of the row before stands, if it has one.
    out: Option<usize>,
    // And that of the row after.
    into: Option<usize>,
}

impl Pair {
    // Where the own link of the row stands, if it has one.
    #[inline(always)]
    fn own_of(&self, place: usize) -> Option<usize>
        ensures { result ≡ own_in place self.now }
    {
        if self.before.place == place {
            self.out
        } else {
            self.into
        }
    }
}

/// The table of a heap, whose pairs of rows have one owner for each link that both have.
#[derive(Drop)]
pub(crate) struct Shared<T> {
    table: Table<T>,
    pairs: ArrayVec<Pair, PAIRS>,
}

impl<T> Model for Shared<T> {
    ghost use Rattle.node_heap.specs.Layout.{Table as Seen};
    ghost use Rattle.node_heap.specs.Pairs.{counted_too, IsSharing};

    ghost Value = { Seen T };

    ghost view = { λ s. counted_too s.table s.pairs.items };

    ghost invariant = { λ s. IsSharing s.table.slots s.pairs.items };
}

impl<T> Shared<T> {
    // No rows and no spares.
    pub(crate) fn new(alloc: Global) -> Shared<T>
        ensures slots { result.slots ≡ [] }
        ensures spare_cells { result.spare_cells ≡ 0 }
        ensures spare_nodes { result.spare_nodes ≡ 0 }
    {
        Shared {
            table: Table::new(alloc),
            pairs: ArrayVec::new(),
        }
    }

    // The number of rows.
    pub(crate) fn len(&self) -> usize
        ensures { result ≡ filled_count self.now.slots }
    {
        self.table.len()
    }

    pub(crate) fn spare_cells(&self) -> usize
        ensures { result ≡ self.now.spare_cells }
    {
        self.table.spare_cells()
    }

    pub(crate) fn spare_nodes(&self) -> usize
        ensures { result ≡ self.now.spare_nodes }
    {
        self.table.spare_nodes()
    }

    // Makes just so many spares of each kind, no fewer than there are. Refused, it leaves all as it was.
    pub(crate) fn reserve(&mut self, cells: usize, nodes: usize) -> Result<(), AllocError>
        requires more_cells { self.old.spare_cells ≤ cells }
        requires more_nodes { self.old.spare_nodes ≤ nodes }
        requires few { filled_count self.old.slots + (cells + nodes) < row_limit }
        ensures slots { self.new.slots ≡ self.old.slots }
        ensures cells { OnOk result (self.new.spare_cells ≡ cells) }
        ensures nodes { OnOk result (self.new.spare_nodes ≡ nodes) }
        ensures refused { OnErr result (self.new ≡ self.old) }
        ensures ample { self.old.spare_cells ≡ cells → self.old.spare_nodes ≡ nodes → IsOk result }
    {
        self.table.reserve(cells, nodes)
    }

    // Makes a cell of a spare, with one owner. Answers its place.
    pub(crate) fn put_cell(&mut self, value: T) -> usize
        requires { 0 < self.old.spare_cells }
        ensures puts { PutsIn self.old.slots self.new.slots result (cell value) }
        ensures spare_cells { self.new.spare_cells + 1 ≡ self.old.spare_cells }
        ensures spare_nodes { self.new.spare_nodes ≡ self.old.spare_nodes }
    {
        self.table.put_cell(value)
    }

    // Makes a node of a spare, with one owner and these links, at most 32. Answers its place.
    pub(crate) fn put_node(&mut self, head: Head, links: &[Link]) -> usize
        requires spare { 0 < self.old.spare_nodes }
        requires short { length links.now ≤ 32 }
        ensures puts { PutsIn self.old.slots self.new.slots result (node head links.now) }
        ensures spare_cells { self.new.spare_cells ≡ self.old.spare_cells }
        ensures spare_nodes { self.new.spare_nodes + 1 ≡ self.old.spare_nodes }
    {
        self.table.put_node(head, links)
    }

    // A node that is made of the one at the place by one change, of a spare: without the link at the index `out`, if any, and
    // with a link at an index of those that are left, if any. It has one owner, and the links that stay have one more each. Answers its place.
    #[inline(always)]
    pub(crate) fn put_changed(
        &mut self,
        place: usize,
        head: Head,
        out: Option<usize>,
        into: &Option<(usize, Link)>,
    ) -> usize
        requires node { is_node (graph_of self.old.slots place) ≡ 1 }
        requires out { IfSome out (λ i. i < length (links_of (graph_of self.old.slots place))) }
        requires into { IfSome into.now (λ i. i.0 ≤ length (without out (links_of (graph_of self.old.slots place)))) }
        requires short { length (changed_links out into.now (links_of (graph_of self.old.slots place))) ≤ 32 }
        requires linked { (l : ℕ) → 0 < count l (links_of (graph_of self.old.slots place)) → IsSome (slot_at self.old.slots l) }
        requires room { (l : ℕ) → owners_in (slot_at self.old.slots l) < 2 ^ 64 }
        requires spare { 0 < self.old.spare_nodes }
        ensures makes { MakesOf self.old self.new result (node head (changed_links out into.now (links_of (graph_of self.old.slots place)))) (without out (links_of (graph_of self.old.slots place))) }
    {
        part_row(&mut self.table, &mut self.pairs, place);
        make_room(&mut self.table, &mut self.pairs);
        let made = put_row(&mut self.table, place, head, out, into);
        self.pairs.push(Pair {
            before: Link { place },
            after: Link { place: made },
            out,
            into: place_of(into),
        });
        made
    }

    // The owners of the row at the place.
    pub(crate) fn owners(&self, place: usize) -> usize
        requires live { IsSome (slot_at self.now.slots place) }
        requires room { owners_in (slot_at self.now.slots place) < 2 ^ 64 }
        ensures { result ≡ owners_in (slot_at self.now.slots place) }
    {
        self.table.owners(place) + left_out(&self.table, self.pairs.as_slice(), place)
    }

    // Whether the row has one owner. One of its owners is no place.
    pub(crate) fn held_has_one_owner(&self, place: usize) -> bool
        requires live { IsSome (slot_at self.now.slots place) }
        requires held { places_at self.now.slots place < owners_in (slot_at self.now.slots place) }
        ensures { result ≡ (owners_in (slot_at self.now.slots place) == 1) }
    {
        // That owner is stored, and beside it one for both rows of a pair, if there is such a pair.
        self.table.owners(place) == 1
    }

    // Whether the row has one owner, whatever its owners are.
    pub(crate) fn has_one_owner(&self, place: usize) -> bool
        requires live { IsSome (slot_at self.now.slots place) }
        requires counted { places_at self.now.slots place ≤ owners_in (slot_at self.now.slots place) }
        requires room { owners_in (slot_at self.now.slots place) < 2 ^ 64 }
        ensures { result ≡ (owners_in (slot_at self.now.slots place) == 1) }
    {
        if self.table.owners(place) != 1 {
            return false;
        }
        left_out(&self.table, self.pairs.as_slice(), place) == 0
    }

    // Whether the child, which stands in the parent's row, has one owner.
    pub(crate) fn child_has_one_owner(&self, parent: usize, child: usize) -> bool
        requires live { IsSome (slot_at self.now.slots child) }
        requires linked { 0 < count child (links_of (graph_of self.now.slots parent)) }
        requires counted { places_at self.now.slots child ≤ owners_in (slot_at self.now.slots child) }
        requires room { owners_in (slot_at self.now.slots child) < 2 ^ 64 }
        ensures { result ≡ (owners_in (slot_at self.now.slots child) == 1) }
    {
        if self.table.owners(child) != 1 {
            return false;
        }
        // The one that is stored is the place in this row, or one for both rows of its pair.
        match pair_of(self.pairs.as_slice(), parent) {
            None => true,
            Some(_) => left_out(&self.table, self.pairs.as_slice(), child) == 0,
        }
    }

    // Gives each of the links an owner for each of its places there.
    pub(crate) fn add_owners(&mut self, links: &[Link])
        requires live { (l : ℕ) → 0 < count l links.now → IsSome (slot_at self.old.slots l) }
        requires room { (l : ℕ) → owners_in (slot_at self.old.slots l) + length links.now < 2 ^ 64 }
        ensures owners { (l : ℕ) → owners_in (slot_at self.new.slots l) ≡ owners_in (slot_at self.old.slots l) + count l links.now }
        ensures rows { rows_of_slots self.new.slots ≡ rows_of_slots self.old.slots }
        ensures room { KeepsRoom self.old self.new }
    {
        add_owners(&mut self.table, links);
    }

    // Takes an owner that is no place from the row, which has another.
    pub(crate) fn drop_owner(&mut self, place: usize)
        requires more { places_at self.old.slots place < owners_in (slot_at self.old.slots place) }
        requires live { IsSome (slot_at self.old.slots place) }
        ensures sets { SetsOwners self.old.slots self.new.slots place (owners_in (slot_at self.old.slots place) - 1) }
        ensures rows { rows_of_slots self.new.slots ≡ rows_of_slots self.old.slots }
        ensures room { KeepsRoom self.old self.new }
    {
        *self.table.owners_mut(place) -= 1;
    }

    // Takes an owner from each of the links, and puts those that have none then in front of the rows that wait.
    #[inline(always)]
    pub(crate) fn drop_places(&mut self, links: &[Link], first: usize) -> usize
        requires dying { (H : ℕ → ℕ) × IsDying H self.old.slots first links.now }
        requires low { IsLow self.old.slots }
        ensures dropped { (H : ℕ → ℕ) → IsDying H self.old.slots first links.now → IsDying H self.new.slots result [] }
        ensures rows { rows_of_slots self.new.slots ≡ rows_of_slots self.old.slots }
        ensures low { IsLow self.new.slots }
        ensures room { KeepsRoom self.old self.new }
    {
        drop_places(&mut self.table, links, first)
    }

    // The value of the cell at the place, and none for a node.
    pub(crate) fn value(&self, place: usize) -> Option<&T>
        requires { IsSome (slot_at self.now.slots place) }
        ensures { option_copied result ≡ value_of (graph_of self.now.slots place) }
    {
        self.table.value(place)
    }

    // The head of the node at the place, and none for a cell.
    pub(crate) fn head(&self, place: usize) -> Option<&Head>
        requires { IsSome (slot_at self.now.slots place) }
        ensures { option_copied result ≡ head_of (graph_of self.now.slots place) }
    {
        self.table.head(place)
    }

    // What the node at the place is, and none for a cell.
    #[inline(always)]
    pub(crate) fn kind(&self, place: usize) -> Option<Kind>
        requires { IsSome (slot_at self.now.slots place) }
        ensures { option_map kind_said result ≡ option_map kind_of (head_of (graph_of self.now.slots place)) }
    {
        self.table.kind(place)
    }

    // The sums of the node at the place, if any.
    #[inline(always)]
    pub(crate) fn sums(&self, place: usize) -> &[u32]
        requires { IsSome (slot_at self.now.slots place) }
        ensures { result.now ≡ sums_in (graph_of self.now.slots place) }
    {
        self.table.sums(place)
    }

    // The sets and the links of a row of a trie.
    #[inline(always)]
    pub(crate) fn trie(&self, place: usize) -> TrieRef<'_>
        requires { (depth entries nodes : ℕ) × (head_of (graph_of self.now.slots place) ≡ Some (Trie depth entries nodes)) }
        ensures sets { (depth : ℕ) × (head_of (graph_of self.now.slots place) ≡ Some (Trie depth result.entries result.nodes)) }
        ensures links { result.links.now ≡ links_of (graph_of self.now.slots place) }
    {
        self.table.trie(place)
    }

    // The links of the row at the place. A cell has none.
    #[inline]
    pub(crate) fn links(&self, place: usize) -> &[Link]
        requires { IsSome (slot_at self.now.slots place) }
        ensures { result.now ≡ links_of (graph_of self.now.slots place) }
    {
        self.table.links(place)
    }

    // The head of the node at the place, whose links it puts in the list.
    pub(crate) fn copy_node(&self, place: usize, links: &mut RowLinks) -> Head
        requires { is_node (graph_of self.now.slots place) ≡ 1 }
        ensures { graph_of self.now.slots place ≡ Some (node result links.new) }
    {
        self.table.copy_node(place, links)
    }

    // Puts the link in place of the one at the index, which it answers.
    pub(crate) fn replace_link(&mut self, place: usize, index: usize, link: Link) -> Link
        requires index { index < length (links_of (graph_of self.old.slots place)) }
        requires room { (l : ℕ) → owners_in (slot_at self.old.slots l) < 2 ^ 64 }
        ensures old { result ≡ slice_index (links_of (graph_of self.old.slots place)) index }
        ensures rewrites { Rewrites self.old.slots self.new.slots place (head_of (graph_of self.old.slots place)) (slice_set (links_of (graph_of self.old.slots place)) index link) }
        ensures room { KeepsRoom self.old self.new }
    {
        part_row(&mut self.table, &mut self.pairs, place);
        self.table.replace_link(place, index, link)
    }

    // Puts the link at the index, before those that stand there and after.
    pub(crate) fn insert_link(&mut self, place: usize, index: usize, link: Link)
        requires node { is_node (graph_of self.old.slots place) ≡ 1 }
        requires index { index ≤ length (links_of (graph_of self.old.slots place)) }
        requires short { length (links_of (graph_of self.old.slots place)) < 32 }
        requires room { (l : ℕ) → owners_in (slot_at self.old.slots l) < 2 ^ 64 }
        ensures rewrites { Rewrites self.old.slots self.new.slots place (head_of (graph_of self.old.slots place)) (insert (links_of (graph_of self.old.slots place)) index link) }
        ensures room { KeepsRoom self.old self.new }
    {
        part_row(&mut self.table, &mut self.pairs, place);
        self.table.insert_link(place, index, link);
    }

    // Takes the link at the index out.
    pub(crate) fn remove_link(&mut self, place: usize, index: usize) -> Link
        requires index { index < length (links_of (graph_of self.old.slots place)) }
        requires room { (l : ℕ) → owners_in (slot_at self.old.slots l) < 2 ^ 64 }
        ensures old { result ≡ slice_index (links_of (graph_of self.old.slots place)) index }
        ensures rewrites { Rewrites self.old.slots self.new.slots place (head_of (graph_of self.old.slots place)) (remove (links_of (graph_of self.old.slots place)) index) }
        ensures room { KeepsRoom self.old self.new }
    {
        part_row(&mut self.table, &mut self.pairs, place);
        self.table.remove_link(place, index)
    }

    // Puts the head in place of the node's.
    pub(crate) fn set_head(&mut self, place: usize, head: Head)
        requires { is_node (graph_of self.old.slots place) ≡ 1 }
        ensures rewrites { Rewrites self.old.slots self.new.slots place (Some head) (links_of (graph_of self.old.slots place)) }
        ensures room { KeepsRoom self.old self.new }
    {
        self.table.set_head(place, head);
    }
}

impl<T: Drop> Shared<T> {
    // Takes the row at the place out, to which no row leads. It is a spare of its kind then. Answers its owners, and puts the links that lose
    // an owner in the list: all of its own, or the one that the other row of its pair doesn't have.
    #[inline(always)]
    pub(crate) fn take(&mut self, place: usize, links: &mut RowLinks) -> usize
        requires live { IsSome (slot_at self.old.slots place) }
        requires unplaced { places_at self.old.slots place ≡ 0 }
        ensures owners { result ≡ owners_in (slot_at self.old.slots place) }
        ensures gives { GivesUp self.old self.new place links.new }
    {
        leave_pair(&self.table, &mut self.pairs, place, links);
        self.table.take(place)
    }
}

// A node that is made of the one at the place by one change, of a spare, with one owner. Answers its place.
#[inline(always)]
fn put_row<T>(
    table: &mut Table<T>,
    place: usize,
    head: Head,
    out: Option<usize>,
    into: &Option<(usize, Link)>,
) -> usize
    requires live { IsSome (slot_at table.old.slots place) }
    requires out { IfSome out (λ i. i < length (links_of (graph_of table.old.slots place))) }
    requires into { IfSome into.now (λ i. i.0 ≤ length (without out (links_of (graph_of table.old.slots place)))) }
    requires short { length (changed_links out into.now (links_of (graph_of table.old.slots place))) ≤ 32 }
    requires spare { 0 < table.old.spare_nodes }
    ensures puts { PutsIn table.old.slots table.new.slots result (node head (changed_links out into.now (links_of (graph_of table.old.slots place)))) }
    ensures spare_cells { table.new.spare_cells ≡ table.old.spare_cells }
    ensures spare_nodes { table.new.spare_nodes + 1 ≡ table.old.spare_nodes }
{
    match in_place(out, into) {
        Some(came) => table.put_beside(place, head, came.0, came.1),
        None => put_moved(table, place, head, out, into),
    }
}

// The same by a list of the links.
#[inline(never)]
fn put_moved<T>(
    table: &mut Table<T>,
    place: usize,
    head: Head,
    out: Option<usize>,
    into: &Option<(usize, Link)>,
) -> usize
    requires live { IsSome (slot_at table.old.slots place) }
    requires out { IfSome out (λ i. i < length (links_of (graph_of table.old.slots place))) }
    requires into { IfSome into.now (λ i. i.0 ≤ length (without out (links_of (graph_of table.old.slots place)))) }
    requires short { length (changed_links out into.now (links_of (graph_of table.old.slots place))) ≤ 32 }
    requires spare { 0 < table.old.spare_nodes }
    ensures puts { PutsIn table.old.slots table.new.slots result (node head (changed_links out into.now (links_of (graph_of table.old.slots place)))) }
    ensures spare_cells { table.new.spare_cells ≡ table.old.spare_cells }
    ensures spare_nodes { table.new.spare_nodes + 1 ≡ table.old.spare_nodes }
{
    let mut links = table.row_links(place);
    links.take_out(out);
    links.put_in(into);
    table.put_node(head, links.as_slice())
}

// The link that comes in the place of the one that goes, so that no other moves, if it is so.
#[inline(always)]
fn in_place(out: Option<usize>, into: &Option<(usize, Link)>) -> Option<(usize, Link)>
    ensures gone { IfSome result (λ i. out ≡ Some i.0) }
    ensures came { IfSome result (λ i. into.now ≡ Some i) }
{
    let gone = out?;
    match into {
        None => None,
        Some(came) => if came.0 == gone {
            Some((gone, came.1))
        } else {
            None
        },
    }
}

// Where the link is put in.
#[inline(always)]
fn place_of(came: &Option<(usize, Link)>) -> Option<usize>
    ensures { result ≡ option_map (λ (c : ℕ × ℕ). c.0) came.now }
{
    match came {
        None => None,
        Some(came) => Some(came.0),
    }
}

// The pair of the row, if any.
#[inline(always)]
fn pair_of(pairs: &[Pair], place: usize) -> Option<usize>
    ensures there { IfSome result (λ i. i < length pairs.now) }
    ensures found { IfSome result (λ i. IsOf place (slice_index_or pairs.now i no_pair)) }
    ensures none { IfNone result (count place (paired pairs.now) ≡ 0) }
{
    // Mostly it is among the last.
    let mut left = pairs.len();
    while left > 0 {
        left -= 1;
        let pair = &pairs[left];
        if pair.before.place == place || pair.after.place == place {
            return Some(left);
        }
    }
    None
}

// The row's pair goes, if it has one. Puts its links in the list, or of a row of a pair the one that the other row doesn't have.
#[inline(always)]
fn leave_pair<T>(
    table: &Table<T>,
    pairs: &mut ArrayVec<Pair, PAIRS>,
    place: usize,
    links: &mut RowLinks,
)
    requires live { IsSome (slot_at table.now.slots place) }
    requires inside { All (λ p. IsOf place p → IfSome (own_in place p) (λ i. i < length (links_of (graph_of table.now.slots place)))) pairs.old.items }
    ensures { HasNoPair place pairs.old.items (links_of (graph_of table.now.slots place)) pairs.new.items links.new ⊎ LeavesPair place pairs.old.items (links_of (graph_of table.now.slots place)) pairs.new.items links.new }
{
    match pair_of(pairs.as_slice(), place) {
        None => table.copy_links(place, links),
        Some(index) => {
            let pair = take_pair(pairs, index);
            links.copy_one(table.links(place), pair.own_of(place));
        }
    }
}

// Takes the pair at the index out, which is mostly the last.
#[inline(always)]
fn take_pair(pairs: &mut ArrayVec<Pair, PAIRS>, index: usize) -> Pair
    requires { index < array_vec_len pairs.old }
    ensures value { result ≡ slice_index_or pairs.old.items index result }
    ensures items { pairs.new.items ≡ remove pairs.old.items index }
{
    let count = pairs.len();
    if index + 1 < count {
        return pairs.remove(index);
    }
    match pairs.pop() {
        Some(last) => last,
        None => unreachable!(),
    }
}

// How often the row's link is common to both rows of a pair.
#[inline(never)]
fn left_out<T>(table: &Table<T>, pairs: &[Pair], place: usize) -> usize
    requires sharing { IsSharing table.now.slots pairs.now }
    requires fits { common_at table.now.slots pairs.now place < 2 ^ 64 }
    ensures { result ≡ common_at table.now.slots pairs.now place }
{
    let mut sum = 0;
    for pair in pairs {
        sum += places_but(table.links(pair.before.place), pair.out, place);
    }
    sum
}

// How often the row's link stands among the links, but for one of them, if any.
fn places_but(links: &[Link], out: Option<usize>, place: usize) -> usize
    requires { IfSome out (λ i. i < length links.now) }
    ensures { result ≡ count place (without out links.now) }
{
    let places = places_of(links, place);
    match out {
        None => places,
        Some(index) => {
            let own = links[index];
            places - usize::from(own.place == place)
        }
    }
}

// How often the row's link stands among the links.
fn places_of(links: &[Link], place: usize) -> usize
    ensures { result ≡ count place links.now }
{
    let mut places = 0;
    for link in links {
        if link.place == place {
            places += 1;
        }
    }
    places
}

// Before a row is written, its pair is parted, if it has one.
#[inline(always)]
fn part_row<T>(table: &mut Table<T>, pairs: &mut ArrayVec<Pair, PAIRS>, place: usize)
    requires sharing { IsSharing table.old.slots pairs.old.items }
    requires room { (l : ℕ) → owners_in (slot_at table.old.slots l) + common_at table.old.slots pairs.old.items l < 2 ^ 64 }
    ensures sharing { IsSharing table.new.slots pairs.new.items }
    ensures alike { CountsAlike table.old pairs.old.items table.new pairs.new.items }
    ensures apart { count place (paired pairs.new.items) ≡ 0 }
{
    if let Some(index) = pair_of(pairs.as_slice(), place) {
        part(table, pairs, index);
    }
}

// Where there are as many pairs as may be, one is parted.
#[inline(always)]
fn make_room<T>(table: &mut Table<T>, pairs: &mut ArrayVec<Pair, PAIRS>)
    requires sharing { IsSharing table.old.slots pairs.old.items }
    requires room { (l : ℕ) → owners_in (slot_at table.old.slots l) + common_at table.old.slots pairs.old.items l < 2 ^ 64 }
    ensures sharing { IsSharing table.new.slots pairs.new.items }
    ensures alike { CountsAlike table.old pairs.old.items table.new pairs.new.items }
    ensures fits { array_vec_len pairs.new < 16 }
    ensures off { (k : ℕ) → count k (paired pairs.old.items) ≡ 0 → count k (paired pairs.new.items) ≡ 0 }
{
    if pairs.is_full() {
        part(table, pairs, 0);
    }
}

// The rows of the pair count each for itself then: each common link has an owner more, and the pair goes.
#[inline(never)]
fn part<T>(table: &mut Table<T>, pairs: &mut ArrayVec<Pair, PAIRS>, index: usize)
    requires index { index < array_vec_len pairs.old }
    requires sharing { IsSharing table.old.slots pairs.old.items }
    requires room { (l : ℕ) → owners_in (slot_at table.old.slots l) + common_at table.old.slots pairs.old.items l < 2 ^ 64 }
    ensures sharing { IsSharing table.new.slots pairs.new.items }
    ensures alike { CountsAlike table.old pairs.old.items table.new pairs.new.items }
    ensures pairs { pairs.new.items ≡ remove pairs.old.items index }
{
    let pair = pairs.remove(index);
    let mut links = table.row_links(pair.before.place);
    links.take_out(pair.out);
    add_owners(table, links.as_slice());
}

// Gives each of the links an owner for each of its places there.
fn add_owners<T>(table: &mut Table<T>, links: &[Link])
    requires live { (l : ℕ) → 0 < count l links.now → IsSome (slot_at table.old.slots l) }
    requires room { (l : ℕ) → owners_in (slot_at table.old.slots l) + count l links.now < 2 ^ 64 }
    ensures owners { (l : ℕ) → owners_in (slot_at table.new.slots l) ≡ owners_in (slot_at table.old.slots l) + count l links.now }
    ensures rows { rows_of_slots table.new.slots ≡ rows_of_slots table.old.slots }
    ensures room { KeepsRoom table.old table.new }
{
    for child in links {
        *table.owners_mut(child.place) += 1;
    }
}

// Takes an owner from each of the links, and puts those that have none then in front of the rows that wait. A link that is common to so many
// pairs has so many owners more than are stored, and twice as many places.
#[inline(always)]
fn drop_places<T>(table: &mut Table<T>, links: &[Link], first: usize) -> usize
    requires dying { (H C : ℕ → ℕ) × ((l : ℕ) → 2 * C l ≤ places_at table.old.slots l) × IsDying H (more C 0 table.old.slots) first links.now }
    requires low { IsLow table.old.slots }
    ensures dropped { (H C : ℕ → ℕ) → ((l : ℕ) → 2 * C l ≤ places_at table.old.slots l) → IsDying H (more C 0 table.old.slots) first links.now → IsDying H (more C 0 table.new.slots) result [] }
    ensures rows { rows_of_slots table.new.slots ≡ rows_of_slots table.old.slots }
    ensures low { IsLow table.new.slots }
    ensures room { KeepsRoom table.old table.new }
{
    let mut next = first;
    for link in links {
        let owners = table.owners_mut(link.place);
        if *owners == 1 {
            *owners = next;
            next = link.place;
        } else {
            *owners -= 1;
        }
    }
    next
}
