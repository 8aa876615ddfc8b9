//! What a document of a store says, as it is read and as it is written.
ghost use Rattle.std.specs.Prelude.{◌≡◌, ◌≢◌, ◌≤◌, ◌^◌, codes, true, length, None, Some, option_and_then, IfOk, IfErr};
ghost use Rattle.std.specs.List.{list_all};
ghost use Rattle.std.specs.Str.{bytes_eq};
ghost use Rattle.serde_json.specs.Data.{string, object, member, no_members};
ghost use Rattle.serde_json.specs.View.{view};
ghost use Rattle.pool_text.specs.Rows.{is_in_range};
ghost use Rattle.pool_text.specs.Document.{natural, value_in};
ghost use Rattle.pool_text.specs.Parsing.{Reads};
ghost use Rattle.versions_pool.specs.Saved.{rise, rise_after, values_read, values_in, saved_in, saved_in_bytes, value_damage, bytes_damage, saved_document, saved_text};
ghost use Rattle.versions_pool.specs.Seen.{saved_seen, values_seen};

use elem_core::{DEEPEST, NoMemory};
use pool_text::{
    Damage, Places, Rows, elements_of, is_over, number_of, numbers_of, numbers_value, rows_of,
    rows_value, value_at, value_from_bytes,
};
use serde_json::{Value, json};
use std::alloc::{AllocError, Global};
use versions::MOST_VERSIONS;

/// The version of the documents that are written, and the only one that is read.
pub const STORE_VERSION: u32 = 1;

// What a document says: the numbers of the versions, the place of the root of each, and the rows.
#[derive(Drop)]
pub(crate) struct SavedStore {
    pub(crate) names: Places,
    pub(crate) roots: Places,
    pub(crate) rows: Rows,
}

// What the bytes say. Refused with the first of the tests `Json`, `Form`, `Version` and `Row` that they fail, and with `Memory`
// where memory runs out.
pub(crate) fn saved_from_bytes(
    alloc: Global,
    bytes: &[u8],
    format: &str,
) -> Result<SavedStore, Damage>
    ensures saved { IfOk result (λ s. saved_in_bytes format.now bytes.now ≡ Some (saved_seen s)) }
    ensures rise { IfOk result (λ s. rise s.names ≡ true) }
    ensures few { IfOk result (λ s. length s.names ≤ 2 ^ 50) }
    ensures many { IfOk result (λ s. length s.names ≡ length s.roots) }
    ensures rows { IfOk result (λ s. list_all is_in_range s.rows ≡ true) }
    ensures whole { IfOk result (λ _. bytes_damage format.now bytes.now ≡ None) }
    ensures damage { IfErr result (λ d. d ≢ Damage.Memory → bytes_damage format.now bytes.now ≡ Some d) }
{
    let value = value_from_bytes(alloc, bytes)?;
    saved_from_json(alloc, &value, format)
}

// The same of a value.
fn saved_from_json(alloc: Global, value: &Value, format: &str) -> Result<SavedStore, Damage>
    ensures saved { IfOk result (λ s. saved_in format.now (view value.now) ≡ Some (saved_seen s)) }
    ensures rise { IfOk result (λ s. rise s.names ≡ true) }
    ensures few { IfOk result (λ s. length s.names ≤ 2 ^ 50) }
    ensures many { IfOk result (λ s. length s.names ≡ length s.roots) }
    ensures rows { IfOk result (λ s. list_all is_in_range s.rows ≡ true) }
    ensures whole { IfOk result (λ _. value_damage format.now (view value.now) ≡ None) }
    ensures damage { IfErr result (λ d. d ≢ Damage.Memory → value_damage format.now (view value.now) ≡ Some d) }
{
    let said = said_in(alloc, value, format)?;
    if said.version != STORE_VERSION as u64 {
        return Err(Damage::Version);
    }
    let rows = rows_of(alloc, said.rows, DEEPEST)?;
    Ok(SavedStore {
        names: said.names,
        roots: said.roots,
        rows,
    })
}

// What a document says beside its format, its rows as values.
#[derive(Drop)]
pub(crate) struct Said<'a> {
    pub(crate) names: Places,
    pub(crate) roots: Places,
    pub(crate) rows: &'a [Value],
    pub(crate) version: u64,
}

// What a value says as a document of this format, of any version.
fn said_in<'a>(alloc: Global, value: &'a Value, format: &str) -> Result<Said<'a>, Damage>
    ensures value { Reads values_seen Damage.Form (values_in format.now (view value.now)) result }
    ensures rise { IfOk result (λ s. rise s.names ≡ true) }
    ensures few { IfOk result (λ s. length s.names ≤ 2 ^ 50) }
    ensures many { IfOk result (λ s. length s.names ≡ length s.roots) }
{
    let Some(values) = values_of(value, format) else {
        return Err(Damage::Form);
    };
    let (Some(rows), Some(version)) = (elements_of(values.rows), number_of(values.version)) else {
        return Err(Damage::Form);
    };
    let names = numbers_of(alloc, values.names, 0, MOST_VERSIONS, Damage::Form)?;
    let roots = numbers_of(alloc, values.roots, 0, MOST_VERSIONS, Damage::Form)?;
    if !is_rising(names.as_slice()) {
        return Err(Damage::Form);
    }
    if names.as_slice().len() != roots.as_slice().len() {
        return Err(Damage::Form);
    }
    Ok(Said {
        names,
        roots,
        rows,
        version,
    })
}

// Whether each number is less than the next.
fn is_rising(names: &[u64]) -> bool
    ensures { result ≡ rise names.now }
{
    match names.split_first() {
        Some((first, rest)) => rise_behind(*first, rest),
        None => true,
    }
}

// The same of a number and those behind it.
fn rise_behind(first: u64, rest: &[u64]) -> bool
    ensures { result ≡ rise_after first rest.now }
{
    let mut last = first;
    for name in rest {
        if *name <= last {
            return false;
        }
        last = *name;
    }
    true
}

// The values of a document's keys, but for its format.
#[derive(Clone, Copy)]
struct Values<'a> {
    names: &'a Value,
    roots: &'a Value,
    rows: &'a Value,
    version: &'a Value,
}

// The values of an object whose keys are those of a document, in their order, and whose format is this.
fn values_of<'a>(value: &'a Value, format: &str) -> Option<Values<'a>>
    ensures { values_in format.now (view value.now) ≡ option_and_then (λ v. values_read (view v.names.now) (view v.roots.now) (view v.rows.now) (view v.version.now)) result }
{
    let mut members = value.as_object()?.iter();
    let found = value_at(&mut members, "format")?;
    let names = value_at(&mut members, "names")?;
    let roots = value_at(&mut members, "roots")?;
    let rows = value_at(&mut members, "rows")?;
    let version = value_at(&mut members, "version")?;
    if !is_over(&mut members) {
        return None;
    }
    if is_same_text(found.as_str()?, format) {
        Some(Values {
            names,
            roots,
            rows,
            version,
        })
    } else {
        None
    }
}

// Whether the texts are the same.
fn is_same_text(found: &str, format: &str) -> bool
    ensures { result ≡ bytes_eq found.now format.now }
{
    found == format
}

// The compact text of a document of this format that says this.
pub(crate) fn saved_bytes(
    alloc: Global,
    saved: &SavedStore,
    format: &str,
) -> Result<Vec<u8>, NoMemory>
    ensures value { IfOk result (λ b. b.items ≡ saved_text format.now (saved_seen saved.now)) }
    ensures reads { IfOk result (λ b. value_in b.items ≡ Some (saved_document format.now (saved_seen saved.now))) }
{
    let value = saved_value(
        alloc,
        format,
        numbers_value(alloc, saved.names.as_slice())?,
        numbers_value(alloc, saved.roots.as_slice())?,
        rows_value(alloc, saved.rows.as_slice())?,
    )?;
    Ok(value.to_vec(alloc)?)
}

// A document of these values.
fn saved_value(
    alloc: Global,
    format: &str,
    names: Value,
    roots: Value,
    rows: Value,
) -> Result<Value, AllocError>
    ensures { IfOk result (λ v. view v ≡ object (member (codes "format") (string format.now) (member (codes "names") (view names)
        (member (codes "roots") (view roots) (member (codes "rows") (view rows) (member (codes "version") (natural STORE_VERSION) no_members)))))) }
{
    json!(in alloc; {
        "format": format,
        "names": names,
        "roots": roots,
        "rows": rows,
        "version": STORE_VERSION
    })
}
