//! Numbers and lists of numbers in a JSON value.
ghost use Rattle.std.specs.Prelude.{◌≡◌, ◌≤◌, ℕ, List, map, option_map, IfSome};
ghost use Rattle.serde_json.specs.View.{view};
ghost use Rattle.pool_text.specs.Rows.{is_between};
ghost use Rattle.pool_text.specs.Document.{number_in, elements_in, all_of, kept_if};
ghost use Rattle.pool_text.specs.Parsing.{Reads, numbers_between};

use crate::damage::Damage;
use crate::row::Places;
use serde_json::Value;
use std::alloc::Global;

/// The elements of an array, and none of another value.
pub fn elements_of(value: &Value) -> Option<&[Value]>
    ensures { option_map (λ s. map view s.now) result ≡ elements_in (view value.now) }
{
    match value.as_array() {
        Some(items) => Some(items.as_slice()),
        None => None,
    }
}

/// A number of 64 bits without a sign.
pub fn number_of(value: &Value) -> Option<u64>
    ensures { result ≡ number_in (view value.now) }
{
    value.as_u64()
}

/// A number from the least to the most.
pub fn number_between(value: &Value, least: u64, most: u64) -> Option<u64>
    ensures value { result ≡ kept_if (is_between least most) (number_in (view value.now)) }
    ensures most { IfSome result (λ n. n ≤ most) }
{
    match number_of(value) {
        Some(number) if least <= number && number <= most => Some(number),
        _ => None,
    }
}

/// An array of numbers, of which there are from the least to the most. Another value is this damage. It takes memory for the numbers.
pub fn numbers_of(
    alloc: Global,
    value: &Value,
    least: usize,
    most: usize,
    damage: Damage,
) -> Result<Places, Damage>
    ensures { Reads (λ (ns : List ℕ). ns) damage (numbers_between least most (view value.now)) result }
{
    let Some(items) = elements_of(value) else {
        return Err(damage);
    };
    if items.len() < least || most < items.len() {
        return Err(damage);
    }
    each_number(alloc, items, damage)
}

fn each_number(alloc: Global, items: &[Value], damage: Damage) -> Result<Places, Damage>
    ensures { Reads (λ (ns : List ℕ). ns) damage (all_of number_in (map view items.now)) result }
{
    let mut places = Vec::with_capacity(alloc, items.len())?;
    for item in items {
        match number_of(item) {
            Some(place) => places.push(place)?,
            None => return Err(damage),
        }
    }
    Ok(Places::from_vec(places))
}
