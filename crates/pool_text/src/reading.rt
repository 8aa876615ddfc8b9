//! What each reader of a document asks of its bytes and of its members.
ghost use Rattle.std.specs.Prelude.{◌≡◌, List, [], ◌∷◌, if◌then◌else◌, None, Some, option_and_then, option_map};
ghost use Rattle.serde_json.specs.View.{view, members_view};
ghost use Rattle.pool_text.specs.Rows.{Bytes};
ghost use Rattle.pool_text.specs.Document.{value_in, values_at};
ghost use Rattle.pool_text.specs.Parsing.{Reads};

use crate::damage::Damage;
use serde_json::Value;
use std::alloc::Global;
use std::collections::btree_map::Iter;

/// The value whose text the bytes are. Refused with `Json` where they are none, and with `Memory` where memory runs out. It takes
/// time and memory for the bytes.
pub fn value_from_bytes(alloc: Global, bytes: &[u8]) -> Result<Value, Damage>
    ensures { Reads view Damage.Json (value_in bytes.now) result }
{
    match Value::from_slice(alloc, bytes) {
        Ok(value) => Ok(value),
        Err(error) if error.is_memory() => Err(Damage::Memory),
        Err(_) => Err(Damage::Json),
    }
}

/// The value of the next member, if that is its key.
pub fn value_at<'a>(members: &mut Iter<'a, String, Value>, key: &str) -> Option<&'a Value>
    ensures { (keys : List Bytes) → values_at (key.now ∷ keys) (members_view members.old)
        ≡ option_and_then (λ v. option_map (λ ds. view v.now ∷ ds) (values_at keys (members_view members.new))) result }
{
    let (name, value) = members.next()?;
    if name.as_str() == key {
        Some(value)
    } else {
        None
    }
}

/// Whether no member is left.
pub fn is_over(members: &mut Iter<'_, String, Value>) -> bool
    ensures { values_at [] (members_view members.old) ≡ (if result then Some [] else None) }
{
    members.next().is_none()
}
