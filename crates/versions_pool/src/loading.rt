//! A document read to a pool, and the pool's rows loaded into a heap, whatever the roots are.
ghost use Rattle.std.specs.Prelude.{◌≡◌, ◌≢◌, true, length, replicate, None, Some, IfOk, IfErr};
ghost use Rattle.std.specs.List.{list_all};
ghost use Rattle.pool_text.specs.Rows.{is_in_range};
ghost use Rattle.pool_text.specs.Rules.{present_rules};
ghost use Rattle.pool_check.specs.Damages.{damage_with_roots};
ghost use Rattle.pool_check.specs.Roots.{roots_are_of};
ghost use Rattle.versions_pool.specs.Stores.{pool_with, store_damage};
ghost use Rattle.versions_pool.specs.Loading.{AreNames, AreSaid, AreLoadedWith};

use crate::document::saved_from_bytes;
use crate::slots::slots_of;
use elem_core::{CODE_BITS, NoMemory, Stored};
use node_heap::{Heap, Link};
use pool_check::{CheckedRoots, RootKind, check_roots};
use pool_load::{CellValues, load_roots_by};
use pool_text::{Damage, MOST_HISTORY, PRESENT_VERSION, Places, Pool, Rows};
use slab::Slab;
use std::alloc::Global;

// The numbers of the versions and the pool that a document of this format says, where each root has to be of this kind. Refused
// with the first test that the bytes fail, and with `Memory` where memory runs out.
pub(crate) fn checked_document<T: Stored>(
    alloc: Global,
    bytes: &[u8],
    format: &str,
    kind: RootKind,
) -> Result<(Places, CheckedRoots<T>), Damage>
    ensures said { IfOk result (λ r. AreSaid format.now kind bytes.now r.0 r.1) }
    ensures damage { IfErr result (λ d. d ≢ Damage.Memory → store_damage format.now kind bytes.now ≡ Some d) }
{
    let saved = saved_from_bytes(alloc, bytes, format)?;
    let checked = checked_of(alloc, saved.roots, saved.rows, kind)?;
    Ok((saved.names, checked))
}

// The pool of these rows, of which each root has to be of the kind.
fn checked_of<T: Stored>(
    alloc: Global,
    roots: Places,
    rows: Rows,
    kind: RootKind,
) -> Result<CheckedRoots<T>, Damage>
    requires { list_all is_in_range rows ≡ true }
    ensures same { IfOk result (λ checked. checked ≡ pool_with rows roots) }
    ensures undamaged { IfOk result (λ _. damage_with_roots present_rules (replicate (length roots) kind) (pool_with rows roots) ≡ None) }
    ensures kinds { IfOk result (λ checked. roots_are_of (replicate (length roots) kind) checked ≡ true) }
    ensures damage { IfErr result (λ d. d ≢ Damage.Memory → damage_with_roots present_rules (replicate (length roots) kind) (pool_with rows roots) ≡ Some d) }
{
    let kinds = all_of(alloc, roots.as_slice().len(), kind)?;
    let pool = Pool {
        bits: CODE_BITS,
        version: PRESENT_VERSION,
        history: MOST_HISTORY,
        rows,
        roots,
    };
    check_roots(alloc, pool, kinds.as_slice())
}

// The kind, so many times.
fn all_of(alloc: Global, count: usize, kind: RootKind) -> Result<Vec<RootKind>, NoMemory>
    ensures { IfOk result (λ kinds. kinds.items ≡ replicate count kind) }
{
    let mut kinds = Vec::with_capacity(alloc, count)?;
    for _place in 0..count {
        kinds.push(kind)?;
    }
    Ok(kinds)
}

// The pool's rows in a heap of their own, with these values, and its roots at these numbers.
pub(crate) fn loaded_roots<S: Stored, T: Drop, C: CellValues<T>>(
    alloc: Global,
    names: Places,
    checked: CheckedRoots<S>,
    values: &C,
) -> Result<(Heap<T>, Slab<Link>), NoMemory>
    requires { AreNames names checked.roots }
    ensures { IfOk result (λ r. AreLoadedWith C.bytes_of (C.value_at values.now) names checked r.0 r.1.slots) }
{
    let mut heap = Heap::new(alloc);
    let roots = load_roots_by(alloc, &mut heap, checked, values)?;
    let slots = slots_of(alloc, names.as_slice(), roots.as_slice())?;
    Ok((heap, slots))
}
