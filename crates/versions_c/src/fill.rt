//! Many values at once, into room that the caller lends.
ghost use Rattle.std.specs.Prelude.{◌≡◌, ◌≤◌, ◌+◌, List, [], ◌∷◌, ◌++◌, length, take, IfOk, MatchOption};
ghost use Rattle.versions.specs.Sorted.{keys_of, entries_of};
ghost use Rattle.versions_c.specs.declared.value.Value.{Value as Kept};
ghost use Rattle.versions_c.specs.Shown.{HasTooLittle, StandBefore, KeysShown, EntriesShown};
ghost use Rattle.versions_c.specs.Shown.{FillsKeys, FillsEntries};

use crate::form::{Form, bytes_of};
use crate::value::Value;
use total_versions::Refusal;
use versions::{Maps, Sets, Version};

// Where the next value goes: behind how many others, and behind how many bytes of theirs.
#[derive(Clone, Copy)]
struct Place {
    count: usize,
    bytes: usize,
}

// Shows the value behind those that are shown. None, and nothing is done, where there is too little room.
fn pour(value: &Value, at: Place, forms: &mut [Form], room: &mut [u8]) -> Option<Place>
    requires { (xs : List Kept) × StandBefore xs at forms.old room.old }
    ensures shown { (xs : List Kept) → StandBefore xs at forms.old room.old → MatchOption result (HasTooLittle (xs ++ value.now ∷ []) (length forms.old) (length room.old)) (λ p. StandBefore (xs ++ value.now ∷ []) p forms.new room.new) }
    ensures forms { length forms.new ≡ length forms.old }
    ensures room { length room.new ≡ length room.old }
{
    if at.count >= forms.len() {
        return None;
    }
    let bytes = bytes_of(value);
    if bytes.len() > room.len() - at.bytes {
        return None;
    }
    forms[at.count] = Form::of(value);
    Some(Place {
        count: at.count + 1,
        bytes: append(room, at.bytes, bytes),
    })
}

// Writes the bytes behind the first `count`. Answers how many there are then.
fn append(room: &mut [u8], count: usize, bytes: &[u8]) -> usize
    requires { count + length bytes.now ≤ length room.old }
    ensures many { result ≡ count + length bytes.now }
    ensures bytes { take result room.new ≡ take count room.old ++ bytes.now }
    ensures len { length room.new ≡ length room.old }
{
    let end = count + bytes.len();
    room[count..end].copy_from_slice(bytes);
    end
}

// Shows all keys of the version. Answers how many there are, and refuses as out of range where there is too little room for them.
pub(crate) fn keys(
    sets: &Sets<Value>,
    version: Version,
    forms: &mut [Form],
    room: &mut [u8],
) -> Result<usize, Refusal>
    ensures answers { FillsKeys version (length forms.old) (length room.old) sets.now result }
    ensures shown { IfOk result (λ n. KeysShown (keys_of sets.now version) forms.new room.new) }
{
    if !sets.holds(version) {
        return Err(Refusal::NoVersion);
    }
    let mut at = Place { count: 0, bytes: 0 };
    for key in sets.iter(version) {
        let Some(next) = pour(key, at, forms, room) else {
            return Err(Refusal::Range);
        };
        at = next;
    }
    Ok(at.count)
}

// Shows all entries of the version, each as its key and then its value. Answers how many forms that takes, and refuses as out of
// range where there is too little room for them.
pub(crate) fn entries(
    maps: &Maps<Value, Value>,
    version: Version,
    forms: &mut [Form],
    room: &mut [u8],
) -> Result<usize, Refusal>
    ensures answers { FillsEntries version (length forms.old) (length room.old) maps.now result }
    ensures shown { IfOk result (λ n. EntriesShown (entries_of maps.now version) forms.new room.new) }
{
    if !maps.holds(version) {
        return Err(Refusal::NoVersion);
    }
    let mut at = Place { count: 0, bytes: 0 };
    for (key, value) in maps.iter(version) {
        let Some(between) = pour(key, at, forms, room) else {
            return Err(Refusal::Range);
        };
        let Some(next) = pour(value, between, forms, room) else {
            return Err(Refusal::Range);
        };
        at = next;
    }
    Ok(at.count)
}
