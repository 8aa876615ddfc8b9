//! A pool, carried over.
ghost use Rattle.std.specs.Prelude.{◌≡◌, ◌<◌, ◌≤◌, true, length, IfOk, OnOk};
ghost use Rattle.pool_text.specs.Rules.{Rules as VersionRules, present_rules, rules_named};
ghost use Rattle.pool_text.specs.Pool.{forms_in, row_count};
ghost use Rattle.pool_text.specs.declared.rules.TheConstants.{MOST_HISTORY, PRESENT_VERSION};
ghost use Rattle.pool_check.specs.Kinds.{is_trie_root};
ghost use Rattle.pool_check.specs.Damages.{IsValidBy};
ghost use Rattle.pool_carry.specs.Carried.{IsCarried};
ghost use Rattle.pool_carry.specs.Making.{forms_made, AreMade, IsBegun, AreImagesOfFirst, ArePartsOfFirst, ImageIsMade, AreCarriedRows};

use crate::entries::entries_below;
use crate::made::{MadeRow, MadeRows};
use crate::shared_parts::{Part, joined, part_of};
use crate::tries::trie_of;
use elem_core::{CODE_BITS, NoMemory};
use pool_check::Old;
use pool_text::{MOST_HISTORY, Places, Pool, Row, Rows, Rules, at_places, pool_of_rows, relinked};
use std::alloc::Global;

/// The pool of an older document, carried over to today's rules by so many code bits; its undo may keep 4,294,967,295 states. It walks
/// what stands below each trie row of depth 1 once, and takes time and memory for the entries that it meets, and for the other rows,
/// their links and their texts. Where such a row's entries have no digit at depth 0 by the new codes for themselves, it walks the
/// tries above it whole, each once.
pub fn carry(alloc: Global, old: Old, bits: u32) -> Result<Pool, NoMemory>
    requires bits { bits ≤ CODE_BITS }
    ensures carried { IfOk result (λ P. IsCarried present_rules bits old P) }
    ensures version { IfOk result (λ P. P.version ≡ PRESENT_VERSION) }
    ensures bits { IfOk result (λ P. P.bits ≡ bits) }
    ensures history { IfOk result (λ P. P.history ≡ MOST_HISTORY) }
    ensures roots { IfOk result (λ P. length P.roots ≡ 4) }
{
    let pool = old.into_pool();
    let (rows, roots) = carried_rows(alloc, &pool, Rules::present(), bits)?;
    drop(pool);
    pool_of_rows(alloc, &rows, roots.as_slice(), bits, MOST_HISTORY)
}

// The images of a pool's rows, and which of these are those of its roots.
fn carried_rows(
    alloc: Global,
    pool: &Pool,
    rules: Rules,
    bits: u32,
) -> Result<(Rows, Places), NoMemory>
    requires valid { (from : VersionRules) × IsValidBy from pool.now }
    requires bits { bits ≤ CODE_BITS }
    ensures { IfOk result (λ r. AreCarriedRows (rules_named rules) bits pool.now r.0 r.1) }
{
    let rows = pool.rows.as_slice();
    let mut made = MadeRows::with_capacity(alloc, rows.len())?;
    let mut images = Vec::with_capacity(alloc, rows.len())?;
    let mut parts = Vec::with_capacity(alloc, rows.len())?;
    for place in 0..rows.len() {
        let image = image_of(
            alloc,
            pool,
            images.as_slice(),
            parts.as_slice(),
            place,
            rules,
            bits,
            &mut made,
        )?;
        images.push(image)?;
        let part = part_of(
            alloc,
            pool,
            images.as_slice(),
            place,
            rules,
            bits,
            &mut made,
        )?;
        parts.push(part)?;
    }
    let roots = at_places(alloc, images.as_slice(), pool.roots.as_slice())?;
    Ok((made.into_rows(), roots))
}

// The image of the root of a trie at the place after those whose images these are: what its entries and the parts below it join
// to, and where these don't, a trie of all its entries.
fn root_of(
    alloc: Global,
    pool: &Pool,
    images: &[u64],
    parts: &[Option<Part>],
    root: usize,
    rules: Rules,
    bits: u32,
    made: &mut MadeRows,
) -> Result<u64, NoMemory>
    requires valid { (from : VersionRules) × IsValidBy from pool.now }
    requires bits { bits ≤ CODE_BITS }
    requires more { root < row_count pool.now }
    requires root { is_trie_root (forms_in pool.now root) ≡ true }
    requires place { length images.now ≡ root }
    requires made { AreMade made.old }
    requires images { AreImagesOfFirst (rules_named rules) bits pool.now (forms_made made.old) images.now }
    requires parts { ArePartsOfFirst (rules_named rules) bits pool.now (forms_made made.old) images.now parts.now }
    requires same { length parts.now ≡ root }
    ensures made { OnOk result (AreMade made.new) }
    ensures more { OnOk result (IsBegun (forms_made made.old) (forms_made made.new)) }
    ensures image { IfOk result (λ image. ImageIsMade (rules_named rules) bits pool.now (forms_made made.old) (forms_made made.new) images.now image) }
{
    match joined(alloc, pool, images, parts, root, rules, bits)? {
        Some(row) => made.add_trie_row(
            alloc,
            MadeRow::Trie {
                depth: 0,
                entries: row.entries,
                nodes: row.nodes,
                links: row.links,
            },
        ),
        None => {
            let entries = entries_below(alloc, pool, images, root, rules, bits)?;
            trie_of(alloc, made, rules.deepest(), 0, entries.as_slice())
        }
    }
}

// The image of the row at the place after those whose images these are. A row inside a trie has none of its own, and no row
// outside links to it: 0 stands in its place.
fn image_of(
    alloc: Global,
    pool: &Pool,
    images: &[u64],
    parts: &[Option<Part>],
    place: usize,
    rules: Rules,
    bits: u32,
    made: &mut MadeRows,
) -> Result<u64, NoMemory>
    requires valid { (from : VersionRules) × IsValidBy from pool.now }
    requires bits { bits ≤ CODE_BITS }
    requires more { place < row_count pool.now }
    requires place { length images.now ≡ place }
    requires made { AreMade made.old }
    requires images { AreImagesOfFirst (rules_named rules) bits pool.now (forms_made made.old) images.now }
    requires parts { ArePartsOfFirst (rules_named rules) bits pool.now (forms_made made.old) images.now parts.now }
    requires same { length parts.now ≡ place }
    ensures made { OnOk result (AreMade made.new) }
    ensures more { OnOk result (IsBegun (forms_made made.old) (forms_made made.new)) }
    ensures image { IfOk result (λ image. ImageIsMade (rules_named rules) bits pool.now (forms_made made.old) (forms_made made.new) images.now image) }
{
    let rows = pool.rows.as_slice();
    match &rows[place] {
        Row::Trie { depth, .. } => {
            if *depth > 0 {
                return Ok(0);
            }
            root_of(alloc, pool, images, parts, place, rules, bits, made)
        }
        Row::Chain(_) => Ok(0),
        row => {
            let image = relinked(alloc, images, row)?;
            made.add_own(image)
        }
    }
}
