//! What a pool has more than a chain.
ghost use Rattle.std.specs.Prelude.{◌≡◌, true, length, map, fold, codes, Some, IfOk};
ghost use Rattle.serde_json.specs.Data.{string, object, member, no_members};
ghost use Rattle.serde_json.specs.View.{view};
ghost use Rattle.pool_text.specs.Rows.{row_form};
ghost use Rattle.pool_text.specs.Document.{natural, value_in};
ghost use Rattle.pool_text.specs.declared.rules.TheConstants.{PRESENT_VERSION};
ghost use Rattle.pool_check.specs.Damages.{IsValid};
ghost use Rattle.pool_delta.specs.Parts.{part_document, part_text};
ghost use Rattle.pool_delta.specs.Delta.{Placing, no_rows, placed_row, placed as placed_after, delta};
ghost use Rattle.pool_check.specs.Rows.{rows_lead_back};
ghost use Rattle.pool_delta.specs.Free.{Holds};

use crate::chain::Chain;
use crate::free::{FreePlaces, key_of};
use elem_core::NoMemory;
use pool_text::{PRESENT_VERSION, Pool, Row, at_places, numbers_value, relinked, rows_value};
use serde_json::{Value, json};
use std::alloc::{AllocError, Global};

/// The compact text of the partial document that makes the chain stand for the pool: those rows of the pool that the chain hasn't
/// got. It takes time and memory for the rows of both, their links and their texts.
pub fn delta_bytes(alloc: Global, chain: &Chain, pool: &Pool) -> Result<Vec<u8>, NoMemory>
    requires valid { IsValid pool.now }
    requires bits { chain.now.bits ≡ pool.now.bits }
    requires roots { length pool.now.roots ≡ 4 }
    ensures value { IfOk result (λ b. b.items ≡ part_text (delta chain.now pool.now)) }
    ensures reads { IfOk result (λ b. value_in b.items ≡ Some (part_document (delta chain.now pool.now))) }
{
    let rows = chain.rows();
    let (places, own) = placed(alloc, rows, pool.rows.as_slice())?;
    let roots = at_places(alloc, places.as_slice(), pool.roots.as_slice())?;
    let value = part_value(
        alloc,
        rows.len() as u64,
        pool.bits,
        pool.history,
        numbers_value(alloc, roots.as_slice())?,
        rows_value(alloc, own.as_slice())?,
    )?;
    Ok(value.to_vec(alloc)?)
}

// The chain places of a pool's rows, and those of them, with places for links, that the chain hasn't got.
fn placed(alloc: Global, chain: &[Row], rows: &[Row]) -> Result<(Vec<u64>, Vec<Row>), NoMemory>
    requires back { rows_lead_back 0 (map row_form rows.now) ≡ true }
    ensures places { IfOk result (λ r. r.0.items ≡ (fold (placed_after (map row_form chain.now)) no_rows (map row_form rows.now)).places) }
    ensures own { IfOk result (λ r. map row_form r.1.items ≡ (fold (placed_after (map row_form chain.now)) no_rows (map row_form rows.now)).own) }
{
    let mut free = FreePlaces::of(alloc, chain)?;
    let mut places = Vec::with_capacity(alloc, rows.len())?;
    let mut own = Vec::new(alloc);
    for row in rows {
        let row = relinked(alloc, places.as_slice(), row)?;
        place_row(alloc, chain, row, &mut free, &mut places, &mut own)?;
    }
    Ok((places, own))
}

// Gives a row, whose links are chain places, the first free place of a row like it, or else the next place, where it becomes one of
// the pool's own.
fn place_row(
    alloc: Global,
    chain: &[Row],
    row: Row,
    free: &mut FreePlaces,
    places: &mut Vec<u64>,
    own: &mut Vec<Row>,
) -> Result<(), NoMemory>
    ensures { IfOk result (λ _. (g : Placing) → Holds (map row_form chain.now) g places.old.items (map row_form own.old.items) free.old
        → Holds (map row_form chain.now) (placed_row (map row_form chain.now) g (row_form row)) places.new.items (map row_form own.new.items) free.new) }
{
    if let Some(place) = free.take(&key_of(alloc, &row)?) {
        places.push(place)?;
        return Ok(());
    }
    places.push((chain.len() + own.len()) as u64)?;
    own.push(row)?;
    Ok(())
}

// A partial document of these values.
fn part_value(
    alloc: Global,
    after: u64,
    bits: u32,
    history: u32,
    roots: Value,
    rows: Value,
) -> Result<Value, AllocError>
    ensures { IfOk result (λ v. view v ≡ object (member (codes "after") (natural after) (member (codes "bits") (natural bits) (member (codes "format") (string (codes "ewig-part"))
        (member (codes "history") (natural history) (member (codes "roots") (view roots) (member (codes "rows") (view rows)
        (member (codes "version") (natural PRESENT_VERSION) no_members)))))))) }
{
    json!(in alloc; {
        "after": after,
        "bits": bits,
        "format": "ewig-part",
        "history": history,
        "roots": roots,
        "rows": rows,
        "version": PRESENT_VERSION
    })
}
