//! A pool with its lines changed.
ghost use Rattle.std.specs.Prelude.{◌≡◌, ℕ, ◌+◌, ◌<◌, ◌≤◌, ◌^◌, ◌++◌, List, length, map, slice_get, position, nat_eq, true, IfSome, IfOk, IfErr, OnOk};
ghost use Rattle.std.specs.List.{All, list_all};
ghost use Rattle.elem_core.specs.Cell.{IsCell};
ghost use Rattle.node_heap.specs.Links.{count};
ghost use Rattle.node_heap.specs.Forms.{cell, links_of};
ghost use Rattle.pool_order.specs.Order.{with_all_new};
ghost use Rattle.pool_text.specs.Rows.{is_in_range, row_form};
ghost use Rattle.pool_text.specs.Pool.{forms_in, row_count};
ghost use Rattle.pool_text.specs.declared.rules.TheConstants.{PRESENT_VERSION};
ghost use Rattle.pool_check.specs.Rows.{links_lead_back};
ghost use Rattle.pool_map.specs.Lines.{is_cell, leaf_links, cells_in, text_in, line_cells as cells_of, line_texts};
ghost use Rattle.pool_map.specs.Mapped.{image_among, image_of, with_images as form_with_images, mapped_rows as rows_of, mapped};
ghost use Rattle.pool_map.specs.declared.fault.ChangeFault.TheVariants.{Long};

use crate::change::Change;
use crate::fault::ChangeFault;
use elem_core::{Line, NoMemory};
use indexmap::IndexSet;
use pool_text::{Places, Pool, PoolText, Row, Rows, pool_of_rows};
use std::alloc::Global;
use std::marker::Model;

/// The pool, whatever its roots are, with each line changed: once for each cell that is a line, so that lines that were one cell are
/// one. Keys and stars stay. Refused with `Long` exactly where some line becomes none, and with `Memory` where memory runs out, which
/// may stand in place of it. It takes time and memory for the rows, their links and their texts.
pub fn map_cells<C: Change>(alloc: Global, pool: &Pool, change: &mut C) -> Result<Pool, ChangeFault>
    requires links { links_lead_back pool.now ≡ true }
    requires few { C.asked change.old + length (cells_of pool.now) < 2 ^ 63 }
    ensures mapped { IfOk result (λ P. P ≡ mapped (C.image change.old) pool.now) }
    ensures version { IfOk result (λ P. P.version ≡ PRESENT_VERSION) }
    ensures bits { IfOk result (λ P. P.bits ≡ pool.now.bits) }
    ensures range { IfOk result (λ P. list_all is_in_range pool.now.rows ≡ true → list_all is_in_range P.rows ≡ true) }
    ensures lines { IfOk result (λ _. All (λ text. IsCell (C.image change.old text)) (line_texts pool.now)) }
    ensures long { IfErr result (λ fault. fault ≡ Long → ¬ All (λ text. IsCell (C.image change.old text)) (line_texts pool.now)) }
    ensures asked { OnOk result (C.asked change.new ≡ C.asked change.old + length (cells_of pool.now)) }
    ensures at_least { C.asked change.old ≤ C.asked change.new }
    ensures at_most { C.asked change.new ≤ C.asked change.old + length (cells_of pool.now) }
    ensures same { (text : List ℕ) → C.image change.new text ≡ C.image change.old text }
{
    let rows = mapped_rows(alloc, pool, change)?;
    Ok(pool_of_rows(alloc, &rows, pool.roots.as_slice(), pool.bits, pool.history)?)
}

/// The line cells of a pool are fewer than 2^63.
pub fn few_line_cells(pool: &Pool)
    ensures { length (cells_of pool.now) < 2 ^ 63 }
{
    // they are no more than its rows, of which a slice has fewer
    let _rows = pool.rows.as_slice();
}

// The places of the line cells, each once. Contracts see the list.
#[derive(Drop)]
struct LineCells {
    places: IndexSet<u64>,
}

impl Model for LineCells {
    ghost use Rattle.std.specs.Prelude.{List, ℕ};

    ghost Value = { List ℕ };

    ghost view = { λ lines. lines.places.keys };
}

impl LineCells {
    // Their places.
    fn as_slice(&self) -> &[u64]
        ensures { result.now ≡ self.now }
    {
        self.places.as_slice()
    }

    // The index of an element among them, if it is one. It is one look-up.
    fn index_of(&self, element: u64) -> Option<usize>
        ensures index { result ≡ position (nat_eq element) self.now }
        ensures within { IfSome result (λ i. i < length self.now) }
    {
        self.places.get_index_of(&element)
    }

    // The name of an element's image, where the changed lines come after so many rows.
    fn image(&self, count: usize, element: u64) -> u64
        requires count { count < 2 ^ 63 }
        requires few { length self.now < 2 ^ 63 }
        ensures { result ≡ image_among count self.now element }
    {
        match self.index_of(element) {
            Some(index) => count as u64 + index as u64,
            None => element,
        }
    }

    // The names of their images.
    fn images(&self, alloc: Global, count: usize, elements: &[u64]) -> Result<Places, NoMemory>
        requires count { count < 2 ^ 63 }
        requires few { length self.now < 2 ^ 63 }
        ensures { IfOk result (λ images. images ≡ map (image_among count self.now) elements.now) }
    {
        let mut images = Vec::with_capacity(alloc, elements.len())?;
        for element in elements {
            images.push(self.image(count, *element))?;
        }
        Ok(Places::from_vec(images))
    }
}

// The line cells of the pool.
fn line_cells(alloc: Global, pool: &Pool) -> Result<LineCells, NoMemory>
    requires low { (l k : ℕ) → 0 < count k (links_of (forms_in pool.now l)) → k < row_count pool.now }
    ensures { IfOk result (λ lines. lines ≡ cells_of pool.now) }
{
    let rows = pool.rows.as_slice();
    let mut places = IndexSet::new(alloc);
    for row in rows {
        add_cells(rows, elements_of(row), &mut places)?;
    }
    Ok(LineCells { places })
}

// The elements of a leaf, and none of another row.
fn elements_of(row: &Row) -> &[u64]
    ensures { result.now ≡ leaf_links (row_form row.now) }
{
    match row {
        Row::Leaf(links) => links.as_slice(),
        _ => &[],
    }
}

// Adds those of the links that are cells.
fn add_cells(rows: &[Row], links: &[u64], places: &mut IndexSet<u64>) -> Result<(), NoMemory>
    requires low { (k : ℕ) → 0 < count k links.now → k < length rows.now }
    ensures { OnOk result (places.new.keys ≡ with_all_new places.old.keys (cells_in (slice_get (map row_form rows.now)) links.now)) }
{
    for link in links {
        if let Row::Cell(_) = &rows[*link as usize] {
            places.insert(*link)?;
        }
    }
    Ok(())
}

// The rows of the mapped pool by their names: the pool's own, and then the changed lines.
fn mapped_rows<C: Change>(alloc: Global, pool: &Pool, change: &mut C) -> Result<Rows, ChangeFault>
    requires low { (l k : ℕ) → 0 < count k (links_of (forms_in pool.now l)) → k < row_count pool.now }
    requires few { C.asked change.old + length (cells_of pool.now) < 2 ^ 63 }
    ensures rows { IfOk result (λ rows. rows ≡ rows_of pool.now (C.image change.old)) }
    ensures lines { IfOk result (λ _. All (λ text. IsCell (C.image change.old text)) (line_texts pool.now)) }
    ensures long { IfErr result (λ fault. fault ≡ Long → ¬ All (λ text. IsCell (C.image change.old text)) (line_texts pool.now)) }
    ensures asked { OnOk result (C.asked change.new ≡ C.asked change.old + length (cells_of pool.now)) }
    ensures at_least { C.asked change.old ≤ C.asked change.new }
    ensures at_most { C.asked change.new ≤ C.asked change.old + length (cells_of pool.now) }
    ensures same { (text : List ℕ) → C.image change.new text ≡ C.image change.old text }
{
    let lines = line_cells(alloc, pool)?;
    let mut made = own_rows(alloc, pool.rows.as_slice(), &lines)?;
    add_lines(alloc, pool, &lines, change, &mut made)?;
    Ok(Rows::from_vec(made))
}

// The rows, in which those of vectors have the images of their links.
fn own_rows(alloc: Global, rows: &[Row], lines: &LineCells) -> Result<Vec<Row>, NoMemory>
    requires few { length lines.now < 2 ^ 63 }
    ensures { IfOk result (λ made. map row_form made.items ≡ map (form_with_images (image_among (length rows.now) lines.now)) (map row_form rows.now)) }
{
    let mut made = Vec::with_capacity(alloc, rows.len())?;
    for row in rows {
        made.push(with_images(alloc, row, rows.len(), lines)?)?;
    }
    Ok(made)
}

// The row, with the images of its links where it is one of a vector.
fn with_images(alloc: Global, row: &Row, count: usize, lines: &LineCells) -> Result<Row, NoMemory>
    requires count { count < 2 ^ 63 }
    requires few { length lines.now < 2 ^ 63 }
    ensures { IfOk result (λ made. row_form made ≡ form_with_images (image_among count lines.now) (row_form row.now)) }
{
    Ok(match row {
        Row::Cell(text) => {
            Row::Cell(PoolText::from_text(String::from_str(alloc, text.as_str())?))
        }
        Row::Leaf(links) => Row::Leaf(lines.images(alloc, count, links.as_slice())?),
        Row::Inner(height, links) => {
            Row::Inner(*height, lines.images(alloc, count, links.as_slice())?)
        }
        Row::Trie {
            depth,
            entries,
            nodes,
            links,
        } => Row::Trie {
            depth: *depth,
            entries: *entries,
            nodes: *nodes,
            links: Places::from_vec(Vec::from_slice(alloc, links.as_slice())?),
        },
        Row::Chain(links) => Row::Chain(Places::from_vec(Vec::from_slice(
            alloc,
            links.as_slice(),
        )?)),
        Row::Pair(key, value) => Row::Pair(*key, *value),
        Row::State(buffers, stars) => Row::State(*buffers, *stars),
    })
}

// Adds the changed lines.
fn add_lines<C: Change>(
    alloc: Global,
    pool: &Pool,
    lines: &LineCells,
    change: &mut C,
    made: &mut Vec<Row>,
) -> Result<(), ChangeFault>
    requires lines { lines.now ≡ cells_of pool.now }
    requires few { C.asked change.old + length (cells_of pool.now) < 2 ^ 63 }
    ensures rows { OnOk result (map row_form made.new.items ≡ map row_form made.old.items ++ map (λ text. cell (C.image change.old text)) (line_texts pool.now)) }
    ensures lines { OnOk result (All (λ text. IsCell (C.image change.old text)) (line_texts pool.now)) }
    ensures long { IfErr result (λ fault. fault ≡ Long → ¬ All (λ text. IsCell (C.image change.old text)) (line_texts pool.now)) }
    ensures asked { OnOk result (C.asked change.new ≡ C.asked change.old + length (cells_of pool.now)) }
    ensures at_least { C.asked change.old ≤ C.asked change.new }
    ensures at_most { C.asked change.new ≤ C.asked change.old + length (cells_of pool.now) }
    ensures same { (text : List ℕ) → C.image change.new text ≡ C.image change.old text }
{
    let rows = pool.rows.as_slice();
    let places = lines.as_slice();
    for place in places {
        let line = changed_line(alloc, text_of(rows, *place), change)?;
        made.push(Row::Cell(line))?;
    }
    Ok(())
}

// The text of a cell.
fn text_of(rows: &[Row], place: u64) -> &str
    requires { is_cell (slice_get (map row_form rows.now) place) ≡ true }
    ensures { result.now ≡ text_in (slice_get (map row_form rows.now) place) }
{
    match &rows[place as usize] {
        Row::Cell(text) => text.as_str(),
        _ => unreachable!(),
    }
}

// What a line becomes.
fn changed_line<C: Change>(
    alloc: Global,
    old: &str,
    change: &mut C,
) -> Result<PoolText, ChangeFault>
    requires few { C.asked change.old + 1 < 2 ^ 63 }
    ensures text { IfOk result (λ text. text ≡ C.image change.old old.now) }
    ensures line { IfOk result (λ _. IsCell (C.image change.old old.now)) }
    ensures long { IfErr result (λ fault. fault ≡ Long → ¬ IsCell (C.image change.old old.now)) }
    ensures asked { C.asked change.new ≡ C.asked change.old + 1 }
    ensures same { (text : List ℕ) → C.image change.new text ≡ C.image change.old text }
{
    let text = change.change(alloc, old)?;
    if Line::new(&text).is_none() {
        return Err(ChangeFault::Long);
    }
    Ok(PoolText::from_text(text))
}
