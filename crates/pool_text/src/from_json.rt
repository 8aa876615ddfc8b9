//! The pool that a document stands for, or the first test that the document fails.
ghost use Rattle.std.specs.Prelude.{◌≡◌, ◌≢◌, ◌≤◌, List, ◌∷◌, map, length, codes, true, None, Some, option_and_then, option_map, IfOk, IfErr, IfSome};
ghost use Rattle.std.specs.List.{list_all};
ghost use Rattle.std.specs.Option.{option_or};
ghost use Rattle.std.specs.Str.{bytes_eq};
ghost use Rattle.serde_json.specs.View.{view, members_view};
ghost use Rattle.pool_text.specs.Rows.{Bytes, is_in_range};
ghost use Rattle.pool_text.specs.Rules.{rules_of, rules_named, bits_by};
ghost use Rattle.pool_text.specs.declared.rules.TheConstants.{PRESENT_VERSION, MOST_HISTORY};
ghost use Rattle.pool_text.specs.Document.{values_at, number_in, history_in, fits_version, kept_if, parts_read, parts_in, pool_by as pool_of_parts, pool_in, pool_in_bytes, IsInRange, HistoryFitsVersion, parts_damage_by, value_damage, bytes_damage, present_value_damage, present_bytes_damage};
ghost use Rattle.pool_text.specs.Parsing.{Reads, parts_seen, with_history};

use crate::damage::Damage;
use crate::numbers::{elements_of, number_between, number_of, numbers_of};
use crate::pool::Pool;
use crate::reading::{is_over, value_at, value_from_bytes};
use crate::row::Places;
use crate::row_in::rows_of;
use crate::rules::{FIRST_CODE_BITS, FIRST_VERSION, MOST_HISTORY, PRESENT_VERSION, Rules};
use elem_core::CODE_BITS;
use serde_json::Value;
use std::alloc::Global;
use std::collections::btree_map::Iter;

/// The pool of the rows that the bytes have, of the version of their document, in a space of so many code bits. Refused with the
/// first of the tests `Json`, `Form`, `Version`, `Bits` and `Row` that the bytes fail, and with `Memory` where memory runs out,
/// which may come before any test is made. It takes time and memory for the bytes.
pub fn pool_from_bytes(alloc: Global, bytes: &[u8], bits: u32) -> Result<Pool, Damage>
    requires { bits ≤ CODE_BITS }
    ensures pool { IfOk result (λ p. pool_in_bytes bytes.now ≡ Some p) }
    ensures bits { IfOk result (λ p. p.bits ≡ bits_by p.version bits) }
    ensures roots { IfOk result (λ p. length p.roots ≡ 4) }
    ensures rows { IfOk result IsInRange }
    ensures history { IfOk result HistoryFitsVersion }
    ensures whole { IfOk result (λ _. bytes_damage bits bytes.now ≡ None) }
    ensures damage { IfErr result (λ d. d ≢ Damage.Memory → bytes_damage bits bytes.now ≡ Some d) }
{
    let value = value_from_bytes(alloc, bytes)?;
    pool_from_json(alloc, &value, bits)
}

/// The pool of the rows that the value has, of the version of its document, in a space of so many code bits. Refused with the
/// first of the tests `Form`, `Version`, `Bits` and `Row` that the value fails, and with `Memory` where memory runs out, which
/// may come before any test is made. It takes time and memory for the value.
pub fn pool_from_json(alloc: Global, value: &Value, bits: u32) -> Result<Pool, Damage>
    requires { bits ≤ CODE_BITS }
    ensures pool { IfOk result (λ p. pool_in (view value.now) ≡ Some p) }
    ensures bits { IfOk result (λ p. p.bits ≡ bits_by p.version bits) }
    ensures roots { IfOk result (λ p. length p.roots ≡ 4) }
    ensures rows { IfOk result IsInRange }
    ensures history { IfOk result HistoryFitsVersion }
    ensures whole { IfOk result (λ _. value_damage bits (view value.now) ≡ None) }
    ensures damage { IfErr result (λ d. d ≢ Damage.Memory → value_damage bits (view value.now) ≡ Some d) }
{
    let parts = parts_of(alloc, value)?;
    match Rules::of_version(parts.version) {
        Some(rules) => pool_by(alloc, parts, rules, bits),
        None => Err(Damage::Version),
    }
}

/// The same of a document of the version that is written, and of no other: the test `Version` fails for an older one, whatever else
/// is wrong with it. It takes what `pool_from_bytes` takes.
pub fn present_pool_from_bytes(alloc: Global, bytes: &[u8], bits: u32) -> Result<Pool, Damage>
    requires { bits ≤ CODE_BITS }
    ensures pool { IfOk result (λ p. pool_in_bytes bytes.now ≡ Some p) }
    ensures version { IfOk result (λ p. p.version ≡ PRESENT_VERSION) }
    ensures bits { IfOk result (λ p. p.bits ≡ bits) }
    ensures roots { IfOk result (λ p. length p.roots ≡ 4) }
    ensures rows { IfOk result (λ p. list_all is_in_range p.rows ≡ true) }
    ensures history { IfOk result (λ p. p.history ≤ MOST_HISTORY) }
    ensures whole { IfOk result (λ _. present_bytes_damage bits bytes.now ≡ None) }
    ensures damage { IfErr result (λ d. d ≢ Damage.Memory → present_bytes_damage bits bytes.now ≡ Some d) }
{
    let value = value_from_bytes(alloc, bytes)?;
    present_pool_from_json(alloc, &value, bits)
}

// The same of a value.
fn present_pool_from_json(alloc: Global, value: &Value, bits: u32) -> Result<Pool, Damage>
    ensures pool { IfOk result (λ p. pool_in (view value.now) ≡ Some p) }
    ensures version { IfOk result (λ p. p.version ≡ PRESENT_VERSION) }
    ensures bits { IfOk result (λ p. p.bits ≡ bits) }
    ensures roots { IfOk result (λ p. length p.roots ≡ 4) }
    ensures rows { IfOk result (λ p. list_all is_in_range p.rows ≡ true) }
    ensures whole { IfOk result (λ _. present_value_damage bits (view value.now) ≡ None) }
    ensures damage { IfErr result (λ d. d ≢ Damage.Memory → present_value_damage bits (view value.now) ≡ Some d) }
{
    let parts = parts_of(alloc, value)?;
    if parts.version != PRESENT_VERSION as u64 {
        return Err(Damage::Version);
    }
    pool_by(alloc, parts, Rules::present(), bits)
}

// The pool of the rows of these parts, by the rules of their version. Refused with the first of the tests `Bits` and `Row` that
// they fail.
fn pool_by(alloc: Global, parts: Parts<'_>, rules: Rules, bits: u32) -> Result<Pool, Damage>
    requires roots { length parts.roots ≡ 4 }
    requires version { rules_of parts.version ≡ Some (rules_named rules) }
    ensures pool { IfOk result (λ p. pool_of_parts (parts_seen parts.entry) (rules_named rules) ≡ Some p) }
    ensures version { IfOk result (λ p. p.version ≡ parts.entry.version) }
    ensures bits { IfOk result (λ p. p.bits ≡ bits_by p.version bits) }
    ensures roots { IfOk result (λ p. length p.roots ≡ 4) }
    ensures rows { IfOk result IsInRange }
    ensures whole { IfOk result (λ _. parts_damage_by bits (parts_seen parts.entry) (rules_named rules) ≡ None) }
    ensures damage { IfErr result (λ d. d ≢ Damage.Memory → parts_damage_by bits (parts_seen parts.entry) (rules_named rules) ≡ Some d) }
{
    let kept = kept_bits(parts.version, bits);
    if parts.bits != kept as u64 {
        return Err(Damage::Bits);
    }
    let rows = rows_of(alloc, parts.rows, rules.deepest())?;
    Ok(Pool {
        bits: kept,
        version: parts.version as u32,
        history: parts.history,
        rows,
        roots: parts.roots,
    })
}

// How many code bits a document of this version keeps in a space of so many.
fn kept_bits(version: u64, bits: u32) -> u32
    ensures { result ≡ bits_by version bits }
{
    if version == FIRST_VERSION as u64 {
        bits.min(FIRST_CODE_BITS)
    } else {
        bits
    }
}

// What a document has beside its format.
#[derive(Drop)]
pub(crate) struct Parts<'a> {
    pub(crate) bits: u64,
    pub(crate) history: u32,
    pub(crate) roots: Places,
    pub(crate) rows: &'a [Value],
    pub(crate) version: u64,
}

// The parts of a document.
fn parts_of(alloc: Global, value: &Value) -> Result<Parts<'_>, Damage>
    ensures value { Reads parts_seen Damage.Form (parts_in (view value.now)) result }
    ensures roots { IfOk result (λ p. length p.roots ≡ 4) }
{
    let Some(values) = values_of(value) else {
        return Err(Damage::Form);
    };
    let (Some(bits), Some(history), Some(rows), Some(version)) = (
        number_of(values.bits),
        history_of(values.history),
        elements_of(values.rows),
        version_of(values.version, values.history),
    ) else {
        return Err(Damage::Form);
    };
    Ok(Parts {
        bits,
        history,
        roots: numbers_of(alloc, values.roots, 4, 4, Damage::Form)?,
        rows,
        version,
    })
}

// How many states undo keeps in a document with this value of `history`, or with none.
fn history_of(value: Option<&Value>) -> Option<u32>
    ensures value { result ≡ history_in (option_map (λ v. view v.now) value.entry) }
    ensures most { IfSome result (λ n. n ≤ MOST_HISTORY) }
{
    let Some(value) = value else {
        return Some(MOST_HISTORY);
    };
    match number_between(value, 0, MOST_HISTORY as u64) {
        Some(number) => Some(number as u32),
        None => None,
    }
}

// The version of a document, if it is one that says its history, or doesn't, as this one.
fn version_of(value: &Value, history: Option<&Value>) -> Option<u64>
    ensures { result ≡ kept_if (fits_version (option_map (λ v. view v.now) history.entry)) (number_in (view value.now)) }
{
    let version = number_of(value)?;
    if history.is_some() == (version == PRESENT_VERSION as u64) {
        Some(version)
    } else {
        None
    }
}

// The values of a document's keys, but for its format. An older one has no history.
#[derive(Clone, Copy)]
struct DocumentValues<'a> {
    bits: &'a Value,
    history: Option<&'a Value>,
    roots: &'a Value,
    rows: &'a Value,
    version: &'a Value,
}

// The values of an object whose keys are a document's, and whose format is the pool's.
fn values_of(value: &Value) -> Option<DocumentValues<'_>>
    ensures { parts_in (view value.now) ≡ option_and_then (λ v. parts_read (view v.bits.now) (option_map (λ h. view h.now) v.history) (view v.roots.now) (view v.rows.now) (view v.version.now)) result }
{
    let mut members = value.as_object()?.iter();
    let bits = value_at(&mut members, "bits")?;
    let format = value_at(&mut members, "format")?;
    let (history, roots) = history_and_roots(&mut members)?;
    let rows = value_at(&mut members, "rows")?;
    let version = value_at(&mut members, "version")?;
    if !is_over(&mut members) {
        return None;
    }
    if is_pool(format.as_str()?) {
        Some(DocumentValues {
            bits,
            history,
            roots,
            rows,
            version,
        })
    } else {
        None
    }
}

// The value of `history`, if that is the next key, and then that of `roots`.
fn history_and_roots<'a>(
    members: &mut Iter<'a, String, Value>,
) -> Option<(Option<&'a Value>, &'a Value)>
    ensures { (keys : List Bytes) → option_or (values_at (codes "history" ∷ codes "roots" ∷ keys) (members_view members.old)) (values_at (codes "roots" ∷ keys) (members_view members.old))
        ≡ option_and_then (λ v. option_map (λ ds. with_history (option_map (λ h. view h.now) v.0) (view v.1.now ∷ ds)) (values_at keys (members_view members.new))) result }
{
    let (name, value) = members.next()?;
    if name.as_str() == "history" {
        let roots = value_at(members, "roots")?;
        Some((Some(value), roots))
    } else if name.as_str() == "roots" {
        Some((None, value))
    } else {
        None
    }
}

// Whether the format is the pool's.
fn is_pool(format: &str) -> bool
    ensures { result ≡ bytes_eq format.now (codes "ewig-pool") }
{
    format == "ewig-pool"
}
