//! The document of a pool, as a JSON value and as its compact text.
ghost use Rattle.std.specs.Prelude.{◌≡◌, ◌∷◌, [], ◌++◌, map, codes, Some, IfOk};
ghost use Rattle.serde_json.specs.Data.{string, object, member, no_members};
ghost use Rattle.serde_json.specs.View.{view};
ghost use Rattle.pool_text.specs.Rows.{row_form};
ghost use Rattle.pool_text.specs.declared.rules.TheConstants.{PRESENT_VERSION};
ghost use Rattle.pool_text.specs.Document.{list, natural, naturals, row_value as value_of_row, document, text as text_of_pool, value_in};

use crate::pool::Pool;
use crate::row::Row;
use crate::rules::PRESENT_VERSION;
use elem_core::NoMemory;
use serde_json::{Value, json};
use std::alloc::{AllocError, Global};

/// The document of a pool, of the present version whatever the pool's. Err where memory runs out.
pub fn to_json(alloc: Global, pool: &Pool) -> Result<Value, NoMemory>
    ensures value { IfOk result (λ v. view v ≡ document pool.now) }
{
    let rows = rows_value(alloc, pool.rows.as_slice())?;
    let roots = numbers_value(alloc, pool.roots.as_slice())?;
    Ok(document_value(alloc, pool.bits, pool.history, roots, rows)?)
}

/// The compact text of that document, which reads as the document. Err where memory runs out.
pub fn to_bytes(alloc: Global, pool: &Pool) -> Result<Vec<u8>, NoMemory>
    ensures value { IfOk result (λ b. b.items ≡ text_of_pool pool.now) }
    ensures reads { IfOk result (λ b. value_in b.items ≡ Some (document pool.now)) }
{
    Ok(to_json(alloc, pool)?.to_vec(alloc)?)
}

/// The same text of a pool that is used up, without a copy of its texts on the way. Err where memory runs out.
pub fn into_bytes(alloc: Global, pool: Pool) -> Result<Vec<u8>, NoMemory>
    ensures value { IfOk result (λ b. b.items ≡ text_of_pool pool) }
    ensures reads { IfOk result (λ b. value_in b.items ≡ Some (document pool)) }
{
    Ok(into_json(alloc, pool)?.to_vec(alloc)?)
}

// The document of a pool that is used up, whose texts it has then.
fn into_json(alloc: Global, pool: Pool) -> Result<Value, NoMemory>
    ensures value { IfOk result (λ v. view v ≡ document pool) }
{
    let rows = rows_into_value(alloc, pool.rows.into_vec())?;
    let roots = numbers_value(alloc, pool.roots.as_slice())?;
    Ok(document_value(alloc, pool.bits, pool.history, roots, rows)?)
}

// A document of these bits, this bound of undo, and these roots and rows.
fn document_value(
    alloc: Global,
    bits: u32,
    history: u32,
    roots: Value,
    rows: Value,
) -> Result<Value, AllocError>
    ensures { IfOk result (λ v. view v ≡ object (member (codes "bits") (natural bits) (member (codes "format") (string (codes "ewig-pool"))
        (member (codes "history") (natural history) (member (codes "roots") (view roots) (member (codes "rows") (view rows)
        (member (codes "version") (natural PRESENT_VERSION) no_members))))))) }
{
    json!(in alloc; {
        "bits": bits,
        "format": "ewig-pool",
        "history": history,
        "roots": roots,
        "rows": rows,
        "version": PRESENT_VERSION
    })
}

/// An array of rows, each in the form that a document has. It takes time and memory for the rows, their links and their texts.
pub fn rows_value(alloc: Global, rows: &[Row]) -> Result<Value, NoMemory>
    ensures { IfOk result (λ v. view v ≡ list (map (λ row. value_of_row (row_form row)) rows.now)) }
{
    let mut items = Vec::with_capacity(alloc, rows.len())?;
    for row in rows {
        items.push(row_value(alloc, row)?)?;
    }
    Ok(Value::from(items))
}

// The same of rows that are used up. Each is given up as soon as its value is made.
fn rows_into_value(alloc: Global, rows: Vec<Row>) -> Result<Value, NoMemory>
    ensures { IfOk result (λ v. view v ≡ list (map (λ row. value_of_row (row_form row)) rows.items)) }
{
    let mut items = Vec::with_capacity(alloc, rows.len())?;
    for row in rows {
        items.push(row_into_value(alloc, row)?)?;
    }
    Ok(Value::from(items))
}

// A row that is used up: the text of a cell is moved there.
fn row_into_value(alloc: Global, row: Row) -> Result<Value, NoMemory>
    ensures { IfOk result (λ v. view v ≡ value_of_row (row_form row)) }
{
    match row {
        Row::Cell(text) => Ok(json!(in alloc; ["c", text.into_text()])?),
        node => row_value(alloc, &node),
    }
}

// A row: its letter, its numbers and its links.
fn row_value(alloc: Global, row: &Row) -> Result<Value, NoMemory>
    ensures { IfOk result (λ v. view v ≡ value_of_row (row_form row.now)) }
{
    match row {
        Row::Cell(text) => Ok(json!(in alloc; ["c", text.as_str()])?),
        Row::Leaf(links) => node_value(alloc, "l", &[], links.as_slice()),
        Row::Inner(height, links) => { node_value(alloc, "i", &[*height as u32], links.as_slice()) }
        Row::Trie {
            depth,
            entries,
            nodes,
            links,
        } => node_value(
            alloc,
            "m",
            &[*depth as u32, *entries, *nodes],
            links.as_slice(),
        ),
        Row::Chain(links) => node_value(alloc, "k", &[], links.as_slice()),
        Row::Pair(key, value) => node_value(alloc, "p", &[], &[*key, *value]),
        Row::State(buffers, stars) => node_value(alloc, "s", &[], &[*buffers, *stars]),
    }
}

// A node: its letter, its numbers and its links.
fn node_value(
    alloc: Global,
    letter: &str,
    numbers: &[u32],
    links: &[u64],
) -> Result<Value, NoMemory>
    ensures { IfOk result (λ v. view v ≡ list (string letter.now ∷ (map natural numbers.now ++ naturals links.now ∷ []))) }
{
    let mut parts = Vec::with_capacity(alloc, numbers.len().saturating_add(2))?;
    parts.push(Value::try_from_str(alloc, letter)?)?;
    for number in numbers {
        parts.push(Value::from(*number))?;
    }
    parts.push(numbers_value(alloc, links)?)?;
    Ok(Value::from(parts))
}

/// An array of numbers. It takes time and memory for them.
pub fn numbers_value(alloc: Global, numbers: &[u64]) -> Result<Value, NoMemory>
    ensures { IfOk result (λ v. view v ≡ naturals numbers.now) }
{
    let mut items = Vec::with_capacity(alloc, numbers.len())?;
    for number in numbers {
        items.push(Value::from(*number))?;
    }
    Ok(Value::from(items))
}
