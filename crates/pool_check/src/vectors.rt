//! The test of vector rows: each is looked at once, and its shape is kept for the rows above it.
ghost use Rattle.std.specs.Prelude.{◌≡◌, ℕ, ◌<◌, ◌≤◌, ◌-◌, true, List, ◌∷◌, Some, None, is_some, nat_lt, length, IfOk, IfSome, if◌then◌else◌};
ghost use Rattle.std.specs.List.{list_all};
ghost use Rattle.node_heap.specs.Forms.{Forms, links_in, links_of};
ghost use Rattle.pool_text.specs.Rows.{Bytes, is_in_range_to, row_form};
ghost use Rattle.pool_text.specs.Rules.{Rules};
ghost use Rattle.pool_check.specs.Rows.{rows_in_range_by, links_lead_back};
ghost use Rattle.pool_check.specs.Vectors.{has_height, length_at, are_children, keeps_fill_rule, vectors_stand};
ghost use Rattle.rrb_core.specs.Seq.{height_in};
ghost use Rattle.pool_text.specs.Pool.{forms_in, row_count};
ghost use Rattle.pool_check.specs.Kinds.{is_vector_root};
ghost use Rattle.pool_check.specs.Shapes.{shape_at, shape_of, AreShapes, AreFirstShapes};

use elem_core::NoMemory;
use pool_text::{Pool, Row};

// What is kept of a vector row: its height, its length, whether it and all below it are thick, and whether it has no link.
#[derive(Clone, Copy)]
pub(crate) struct Shape {
    pub(crate) height: u8,
    pub(crate) length: u32,
    pub(crate) thick: bool,
    pub(crate) bare: bool,
}

// The fewest links of a thick row.
const THICK: usize = 16;

// The shape of an inner row of this height with these links, if it keeps the fill rule over rows of these shapes.
fn inner_shape(shapes: &[Option<Shape>], height: u8, links: &[u64]) -> Option<Shape>
    requires low { 1 ≤ height }
    requires below { list_all (λ k. nat_lt k (length shapes.now)) links.now ≡ true }
    ensures { (F : Forms Bytes) (l : ℕ) → AreShapes F shapes.now → links_in F l ≡ links.now
        → result ≡ (if are_children F (height - 1) links.now then Some (shape_at F height l) else None) }
{
    let mut length: u32 = 0;
    let mut thick = true;
    for link in links {
        let child = child_of(shapes, *link, height - 1)?;
        if !thick || child.bare {
            return None;
        }
        length = length.checked_add(child.length)?;
        thick = child.thick;
    }
    Some(Shape {
        height,
        length,
        thick: thick && THICK <= links.len(),
        bare: links.is_empty(),
    })
}

// The shape of the row of this height that the link names, if it names one.
fn child_of(shapes: &[Option<Shape>], link: u64, height: u8) -> Option<Shape>
    requires { link < length shapes.now }
    ensures { (F : Forms Bytes) → AreShapes F shapes.now
        → result ≡ (if has_height height (F link) then Some (shape_at F height link) else None) }
{
    let shape = shapes[link as usize]?;
    if shape.height == height {
        Some(shape)
    } else {
        None
    }
}

// The shape of the row, which is none where it isn't a vector row. Refused where it is an inner row that breaks the fill rule.
fn row_shape(shapes: &[Option<Shape>], row: &Row) -> Option<Option<Shape>>
    requires range { (deepest : ℕ) × (is_in_range_to deepest (row_form row.now) ≡ true) }
    requires below { list_all (λ k. nat_lt k (length shapes.now)) (links_of (Some (row_form row.now))) ≡ true }
    ensures { (F : Forms Bytes) (l : ℕ) → AreShapes F shapes.now → F l ≡ Some (row_form row.now)
        → result ≡ (if keeps_fill_rule F (row_form row.now) then Some (shape_of F l (Some (row_form row.now))) else None) }
{
    match row {
        Row::Leaf(links) => Some(Some(leaf_shape(links.as_slice()))),
        Row::Inner(height, links) => Some(Some(inner_shape(shapes, *height, links.as_slice())?)),
        _ => Some(None),
    }
}

// The shape of a leaf with these elements.
fn leaf_shape(elements: &[u64]) -> Shape
    requires { length elements.now ≤ 32 }
    ensures { (F : Forms Bytes) (l : ℕ) → links_in F l ≡ elements.now → result ≡ shape_at F 0 l }
{
    Shape {
        height: 0,
        length: elements.len() as u32,
        thick: THICK <= elements.len(),
        bare: elements.is_empty(),
    }
}

// The shapes of the rows, of which those of the first are given, where every inner row keeps the fill rule, and None where one breaks it.
pub(crate) fn shapes_of(
    pool: &Pool,
    mut shapes: Vec<Option<Shape>>,
) -> Result<Option<Vec<Option<Shape>>>, NoMemory>
    requires first { AreFirstShapes pool.now shapes.items }
    requires rows { (rules : Rules) × (rows_in_range_by rules pool.now ≡ true) }
    requires links { links_lead_back pool.now ≡ true }
    ensures stand { IfOk result (λ found. is_some found ≡ vectors_stand pool.now) }
    ensures shapes { IfOk result (λ found. IfSome found (λ shapes. AreShapes (forms_in pool.now) shapes.items)) }
    ensures count { IfOk result (λ found. IfSome found (λ shapes. length shapes.items ≡ row_count pool.now)) }
{
    let rows = pool.rows.as_slice();
    for place in shapes.len()..rows.len() {
        match row_shape(shapes.as_slice(), &rows[place]) {
            Some(shape) => shapes.push(shape)?,
            None => return Ok(None),
        }
    }
    Ok(Some(shapes))
}

// How long undo, the third root, is by these shapes, and 0 where it is no vector row or there are fewer roots.
pub(crate) fn undo_length(shapes: &[Option<Shape>], roots: &[u64]) -> u32
    requires { list_all (λ k. nat_lt k (length shapes.now)) roots.now ≡ true }
    ensures { (F : Forms Bytes) (c v u : ℕ) (rest : List ℕ) → AreShapes F shapes.now → roots.now ≡ c ∷ v ∷ u ∷ rest → is_vector_root (F u) ≡ true
        → result ≡ length_at F (height_in F u) u }
{
    let [_, _, undo, ..] = roots else {
        return 0;
    };
    match shapes[*undo as usize] {
        Some(shape) => shape.length,
        None => 0,
    }
}
