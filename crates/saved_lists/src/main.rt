//! A program that saves lists and loads them again.
#![tactic(auto)]

ghost use Rattle.std.specs.Prelude.{◌≡◌, IfOk, IfErr};
ghost use Rattle.versions.specs.Store.{Holds};

use anyhow::{Context, Result};
use elem_core::{Line, Stored, Text, text_of};
use pool_text::Damage;
use std::alloc::Global;
use std::fmt::Debug;
use versions::{Lists, Version};
use versions_pool::{lists_after_save, save_lists};

/// What is loaded behind a save is the very store. Refused only where memory runs out.
pub fn saved_and_loaded<T: Stored>(alloc: Global, lists: &Lists<T>) -> Result<Lists<T>, Damage>
    ensures loaded { IfOk result (λ loaded. loaded ≡ lists.now) }
    ensures memory { IfErr result (λ d. d ≡ Damage.Memory) }
{
    lists_after_save(alloc, lists)
}

fn main(rt: HostRuntime) -> Result<()> {
    let texts = (text(&rt, "one")?, text(&rt, "two")?, text(&rt, "three")?);
    let mut lists = Lists::new(rt.alloc());
    run(&rt, &mut lists, texts)
}

fn run<T: Stored + Debug>(
    rt: &(impl AllocGlobal + Print),
    lists: &mut Lists<T>,
    texts: (T, T, T),
) -> Result<()> {
    let none = lists.empty()?;
    let one = lists.push(none, texts.0)?;
    let two = lists.push(one, texts.1)?;
    lists.push(two, texts.2)?;
    println!(rt; "{}", String::from_utf8(save_lists(rt.alloc(), lists)?)?)?;
    show(rt, &saved_and_loaded(rt.alloc(), lists)?)
}

fn show<T: Stored>(rt: &impl Print, lists: &Lists<T>) -> Result<()> {
    for version in lists.versions() {
        if lists.holds(version) {
            show_list(rt, lists, version)?;
        }
    }
    Ok(())
}

fn show_list<T: Stored>(rt: &impl Print, lists: &Lists<T>, version: Version) -> Result<()>
    requires { Holds lists.now version }
{
    print!(rt; "{}:", version.number())?;
    for element in lists.iter(version) {
        print!(rt; " {}", element.text())?;
    }
    println!(rt; "")?;
    Ok(())
}

fn text(rt: &HostRuntime, line: &str) -> Result<Text> {
    let line = Line::new(line).context("no line")?;
    Ok(text_of(rt.alloc(), line)?)
}
