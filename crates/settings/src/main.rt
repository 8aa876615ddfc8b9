//! Settings by their names, with an undo history, over a store of versions.
#![tactic(auto)]

ghost use Rattle.std.specs.Prelude.{◌≡◌, ◌<◌, [], ◌∷◌, length, drop, slice_index_or, option_copied, IfOk, OnErr};
ghost use Rattle.std.specs.FinMap.{find, put};

use elem_core::{Element, NoMemory, Num, Probe};
use std::collections::VecDeque;
use versions::{Maps, Version};

/// Numbers by their names, and what they were before each change. Contracts see all of these, the newest first.
#[derive(Drop)]
pub struct Settings<K: Element> {
    maps: Maps<K, u32>,
    newest: Version,
    past: VecDeque<Version>,
}

impl<K: Element> std::marker::Model for Settings<K> {
    ghost use Rattle.std.specs.Prelude.{ℕ, List, ◌∷◌};
    ghost use Rattle.versions.specs.History.{AreHeld, lists_of};

    ghost Value = { List (List (K × ℕ)) };

    ghost view = { λ s. lists_of s.maps (s.newest ∷ s.past.items) };

    ghost invariant = { λ s. AreHeld s.maps (s.newest ∷ s.past.items) };
}

impl<K: Element> Settings<K> {
    /// Nothing is set, and nothing was.
    pub fn new(alloc: std::alloc::Global) -> Result<Settings<K>, NoMemory>
        ensures { IfOk result (λ s. s ≡ [] ∷ []) }
    {
        let mut maps = Maps::new(alloc);
        let newest = maps.empty()?;
        let past = VecDeque::new(alloc);
        Ok(Settings { maps, newest, past })
    }

    /// Sets the name to the number. Refused only where memory runs out, and then nothing has changed.
    pub fn set(&mut self, name: K, number: u32) -> Result<(), NoMemory>
        ensures changed { IfOk result (λ _. self.new ≡ put K.cmp name number (slice_index_or self.old 0 []) ∷ self.old) }
        ensures refused { OnErr result (self.new ≡ self.old) }
        ensures some { 0 < length self.old }
    {
        self.past.reserve(1)?;
        let Ok(version) = self.maps.insert(self.newest, name, number) else {
            return Err(NoMemory);
        };
        self.past.push_front(self.newest)?;
        self.newest = version;
        Ok(())
    }

    /// Goes back to before the last change, if there was one.
    pub fn undo(&mut self)
        ensures back { 1 < length self.old → self.new ≡ drop 1 self.old }
        ensures first { length self.old ≡ 1 → self.new ≡ self.old }
    {
        if let Some(version) = self.past.pop_front() {
            self.maps.forget(self.newest);
            self.newest = version;
        }
    }

    /// The number that the name is set to, if it is.
    pub fn get<P: Probe<K>>(&self, name: &P) -> Option<&u32>
        ensures { option_copied result ≡ find K.cmp (P.stands_for name.now) (slice_index_or self.now 0 []) }
    {
        self.maps.get(self.newest, name)
    }
}

fn main(rt: HostRuntime) -> anyhow::Result<()> {
    run(&rt, &mut Settings::new(rt.alloc())?)
}

// The name of the width is 1.
fn run(rt: &HostRuntime, settings: &mut Settings<Num>) -> anyhow::Result<()> {
    settings.set(Num(1), 80)?;
    settings.set(Num(1), 100)?;
    settings.undo();
    Ok(println!(rt; "{:?}", settings.get(&Num(1)))?)
}
