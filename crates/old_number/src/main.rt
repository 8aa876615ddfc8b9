//! A map from texts to numbers, of which an old version is kept.
#![tactic(auto)]

ghost use Rattle.std.specs.Prelude.{◌≡◌, Some, None, IfOk, IfErr, OnOk, OnErr};
ghost use Rattle.std.specs.FinMap as map;
ghost use Rattle.std.specs.FinMap.{find, put};
ghost use Rattle.versions.specs.Store.{Holds};
ghost use Rattle.versions.specs.Sorted.{entries_of};

use anyhow::{Context, Result};
use elem_core::{Element, Line, Name, Probe, Text, text_of};
use std::fmt::Debug;
use versions::{Fault, Maps, Refused, Version};

/// The old version with the number at the key, as a new version. The old one still has the old number at each key.
pub fn renumbered<K: Element>(
    maps: &mut Maps<K, u32>,
    old: Version,
    key: K,
    number: u32,
) -> Result<Version, Refused<(K, u32)>>
    requires { Holds maps.old old }
    ensures fresh { IfOk result (λ new. map.get maps.old new ≡ None) }
    ensures made { IfOk result (λ new. maps.new ≡ map.insert maps.old new (put K.cmp key number (entries_of maps.old old))) }
    ensures new_number { IfOk result (λ new. find K.cmp key (entries_of maps.new new) ≡ Some number) }
    ensures old_number { OnOk result (map.get maps.new old ≡ map.get maps.old old) }
    ensures held { IfOk result (λ new. Holds maps.new new × Holds maps.new old) }
    ensures refused { OnErr result (maps.new ≡ maps.old) }
    ensures memory { IfErr result (λ r. r.fault ≡ Fault.Memory) }
{
    maps.insert(old, key, number)
}

// The version with the number 2 at the key, and the one with 3 there.
fn numbered<K: Element>(
    maps: &mut Maps<K, u32>,
    none: Version,
    key: K,
    again: K,
) -> Result<(Version, Version), Refused<(K, u32)>>
    requires { Holds maps.old none }
    ensures held { IfOk result (λ made. Holds maps.new made.0 × Holds maps.new made.1) }
    ensures two { IfOk result (λ made. find K.cmp key (entries_of maps.new made.0) ≡ Some 2) }
    ensures three { IfOk result (λ made. find K.cmp again (entries_of maps.new made.1) ≡ Some 3) }
{
    let old = renumbered(maps, none, key, 2)?;
    let new = renumbered(maps, old, again, 3)?;
    Ok((old, new))
}

fn main(rt: HostRuntime) -> Result<()> {
    let tea = Name::new("tea").context("no name")?;
    let (key, again) = (text(&rt)?, text(&rt)?);
    let mut maps = Maps::new(rt.alloc());
    run(&rt, &mut maps, (key, again), &tea)
}

fn run<K: Element + Debug, P: Probe<K>>(
    rt: &HostRuntime,
    maps: &mut Maps<K, u32>,
    keys: (K, K),
    probe: &P,
) -> Result<()> {
    let none = maps.empty()?;
    let (old, new) = numbered(maps, none, keys.0, keys.1)?;
    println!(rt;
        "{:?}, then {:?}",
        maps.get(old, probe),
        maps.get(new, probe)
    )?;
    Ok(())
}

fn text(rt: &HostRuntime) -> Result<Text> {
    let tea = Line::new("tea").context("no line")?;
    Ok(text_of(rt.alloc(), tea)?)
}
