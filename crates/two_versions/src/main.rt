//! Two versions of a list, compared and merged.
#![tactic(auto)]

ghost use Rattle.std.specs.Prelude.{◌≡◌, ◌≢◌, ◌↔◌, ℕ, ◌+◌, ◌^◌, ◌≤◌, ◌++◌, length, Err, None, IfOk, IfErr, OnOk, OnErr};
ghost use Rattle.std.specs.List.{AllZip};
ghost use Rattle.std.specs.declared.cmp.Ordering.TheVariants.{Equal};
ghost use Rattle.std.specs.FinMap as map;
ghost use Rattle.versions.specs.Store.{Holds, list_of};

use anyhow::Result;
use elem_core::{Element, Num};
use std::fmt::Debug;
use versions::{Fault, Lists, Version};

/// The elements of both versions as a third, and those of one alone where they are the same. Each version that was there
/// stays. Refused where both together would be too long, or memory runs out.
pub fn merged<T: Element>(
    lists: &mut Lists<T>,
    left: Version,
    right: Version,
) -> Result<Version, Fault>
    requires left { Holds lists.old left }
    requires right { Holds lists.old right }
    ensures same { AllZip (λ x y. T.cmp x y ≡ Equal) (list_of lists.old left) (list_of lists.old right) → IfOk result (λ both. lists.new ≡ map.insert lists.old both (list_of lists.old left)) }
    ensures apart { ¬ AllZip (λ x y. T.cmp x y ≡ Equal) (list_of lists.old left) (list_of lists.old right) → IfOk result (λ both. lists.new ≡ map.insert lists.old both (list_of lists.old left ++ list_of lists.old right)) }
    ensures fresh { IfOk result (λ both. map.get lists.old both ≡ None) }
    ensures held { IfOk result (λ both. Holds lists.new both) }
    ensures kept { (v : ℕ) → Holds lists.old v → OnOk result (map.get lists.new v ≡ map.get lists.old v) }
    ensures refused { OnErr result (lists.new ≡ lists.old) }
    ensures long { (result ≡ Err Fault.Long) ↔ ((¬ AllZip (λ x y. T.cmp x y ≡ Equal) (list_of lists.old left) (list_of lists.old right)) × (2 ^ 32 ≤ length (list_of lists.old left) + length (list_of lists.old right))) }
    ensures no_range { IfErr result (λ fault. fault ≢ Fault.Range) }
{
    if lists.same(left, right) {
        let copy = lists.copy(left)?;
        return Ok(copy);
    }
    lists.concat(left, right)
}

fn main(rt: HostRuntime) -> Result<()> {
    let mut lists = Lists::new(rt.alloc());
    run(&rt, &mut lists, Num(3), Num(1))
}

fn run<T: Element + Debug>(
    rt: &HostRuntime,
    lists: &mut Lists<T>,
    first: T,
    second: T,
) -> Result<()> {
    let none = lists.empty()?;
    let left = lists.push(none, first)?;
    let right = lists.push(left, second)?;
    let both = merged(lists, left, right)?;
    for element in lists.iter(both) {
        println!(rt; "{:?}", element)?;
    }
    Ok(())
}
