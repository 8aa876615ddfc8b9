//! What a partial document says.
ghost use Rattle.std.specs.Prelude.{◌≡◌, ◌≢◌, ◌≤◌, length, true, codes, None, Some, option_and_then, IfOk, IfErr};
ghost use Rattle.std.specs.List.{list_all};
ghost use Rattle.std.specs.Str.{bytes_eq};
ghost use Rattle.serde_json.specs.View.{view};
ghost use Rattle.pool_text.specs.Rows.{is_in_range};
ghost use Rattle.pool_text.specs.Parsing.{Reads};
ghost use Rattle.pool_text.specs.declared.rules.TheConstants.{MOST_HISTORY};
ghost use Rattle.pool_delta.specs.Parts.{values_read, values_in, part_in, part_in_bytes, part_value_damage, part_bytes_damage};
ghost use Rattle.pool_delta.specs.Read.{part_seen, values_seen};

use elem_core::DEEPEST;
use pool_text::{
    Damage, MOST_HISTORY, PRESENT_VERSION, Places, Rows, elements_of, is_over, number_between,
    number_of, numbers_of, rows_of, value_at, value_from_bytes,
};
use serde_json::Value;
use std::alloc::Global;

// A partial document: after how many rows its own come, how many states undo keeps, its roots and its rows.
#[derive(Drop)]
pub(crate) struct ReadPart {
    pub(crate) after: u64,
    pub(crate) history: u32,
    pub(crate) roots: Places,
    pub(crate) rows: Rows,
}

// What the bytes say as a partial document of so many code bits. Refused with the first of the tests `Json`, `Form`, `Version`,
// `Bits` and `Row` that they fail, and with `Memory` where memory runs out.
pub(crate) fn part_from_bytes(alloc: Global, bytes: &[u8], bits: u32) -> Result<ReadPart, Damage>
    ensures part { IfOk result (λ p. part_in_bytes bytes.now ≡ Some (part_seen bits p)) }
    ensures history { IfOk result (λ p. p.history ≤ MOST_HISTORY) }
    ensures roots { IfOk result (λ p. length p.roots ≡ 4) }
    ensures rows { IfOk result (λ p. list_all is_in_range p.rows ≡ true) }
    ensures whole { IfOk result (λ _. part_bytes_damage bits bytes.now ≡ None) }
    ensures damage { IfErr result (λ d. d ≢ Damage.Memory → part_bytes_damage bits bytes.now ≡ Some d) }
{
    let value = value_from_bytes(alloc, bytes)?;
    part_from_json(alloc, &value, bits)
}

// The same of a value.
fn part_from_json(alloc: Global, value: &Value, bits: u32) -> Result<ReadPart, Damage>
    ensures part { IfOk result (λ p. part_in (view value.now) ≡ Some (part_seen bits p)) }
    ensures history { IfOk result (λ p. p.history ≤ MOST_HISTORY) }
    ensures roots { IfOk result (λ p. length p.roots ≡ 4) }
    ensures rows { IfOk result (λ p. list_all is_in_range p.rows ≡ true) }
    ensures whole { IfOk result (λ _. part_value_damage bits (view value.now) ≡ None) }
    ensures damage { IfErr result (λ d. d ≢ Damage.Memory → part_value_damage bits (view value.now) ≡ Some d) }
{
    let said = said_in(alloc, value)?;
    if said.version != PRESENT_VERSION as u64 {
        return Err(Damage::Version);
    }
    if said.bits != bits as u64 {
        return Err(Damage::Bits);
    }
    let rows = rows_of(alloc, said.rows, DEEPEST)?;
    Ok(ReadPart {
        after: said.after,
        history: said.history,
        roots: said.roots,
        rows,
    })
}

// What a partial document says beside its format, its rows as values.
#[derive(Drop)]
pub(crate) struct Said<'a> {
    pub(crate) after: u64,
    pub(crate) bits: u64,
    pub(crate) history: u32,
    pub(crate) roots: Places,
    pub(crate) rows: &'a [Value],
    pub(crate) version: u64,
}

// What a value says as a partial document, of any version and of any bits.
fn said_in(alloc: Global, value: &Value) -> Result<Said<'_>, Damage>
    ensures value { Reads values_seen Damage.Form (values_in (view value.now)) result }
    ensures history { IfOk result (λ p. p.history ≤ MOST_HISTORY) }
    ensures roots { IfOk result (λ p. length p.roots ≡ 4) }
{
    let Some(values) = values_of(value) else {
        return Err(Damage::Form);
    };
    let (Some(after), Some(bits), Some(history), Some(rows), Some(version)) = (
        number_of(values.after),
        number_of(values.bits),
        number_between(values.history, 0, MOST_HISTORY as u64),
        elements_of(values.rows),
        number_of(values.version),
    ) else {
        return Err(Damage::Form);
    };
    Ok(Said {
        after,
        bits,
        history: history as u32,
        roots: numbers_of(alloc, values.roots, 4, 4, Damage::Form)?,
        rows,
        version,
    })
}

// The values of a partial document's keys, but for its format.
#[derive(Clone, Copy)]
struct Values<'a> {
    after: &'a Value,
    bits: &'a Value,
    history: &'a Value,
    roots: &'a Value,
    rows: &'a Value,
    version: &'a Value,
}

// The values of an object whose keys are a partial document's, in their order, and whose format is the part's.
fn values_of(value: &Value) -> Option<Values<'_>>
    ensures { values_in (view value.now) ≡ option_and_then (λ v. values_read (view v.after.now) (view v.bits.now) (view v.history.now) (view v.roots.now) (view v.rows.now) (view v.version.now)) result }
{
    let mut members = value.as_object()?.iter();
    let after = value_at(&mut members, "after")?;
    let bits = value_at(&mut members, "bits")?;
    let format = value_at(&mut members, "format")?;
    let history = value_at(&mut members, "history")?;
    let roots = value_at(&mut members, "roots")?;
    let rows = value_at(&mut members, "rows")?;
    let version = value_at(&mut members, "version")?;
    if !is_over(&mut members) {
        return None;
    }
    if is_part(format.as_str()?) {
        Some(Values {
            after,
            bits,
            history,
            roots,
            rows,
            version,
        })
    } else {
        None
    }
}

// Whether the format is the part's.
fn is_part(format: &str) -> bool
    ensures { result ≡ bytes_eq format.now (codes "ewig-part") }
{
    format == "ewig-part"
}
