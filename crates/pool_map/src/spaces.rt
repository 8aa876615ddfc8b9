//! Spaces at the fronts of lines: put there, or taken away. A tab is no space.
ghost use Rattle.std.specs.Prelude.{◌≡◌, ℕ, List, IfOk, IfErr};
ghost use Rattle.pool_check.specs.Damages.{IsValid};
ghost use Rattle.pool_map.specs.Laws.{KeepsCells};
ghost use Rattle.pool_map.specs.Mapped.{mapped};
ghost use Rattle.pool_map.specs.Spaces.{dedented as without_leading, indented as with_spaces};
ghost use Rattle.pool_map.specs.declared.fault.ChangeFault.TheVariants.{Long};

use crate::change::Change;
use crate::fault::ChangeFault;
use crate::mapping::{few_line_cells, map_cells};
use elem_core::NoMemory;
use pool_text::Pool;
use std::alloc::Global;

/// The pool with so many spaces before each line. Refused with `Long` exactly where some line becomes too long, and with `Memory`
/// where memory runs out, which may stand in place of it.
pub fn indented(alloc: Global, pool: &Pool, spaces: u64) -> Result<Pool, ChangeFault>
    requires { IsValid pool.now }
    ensures mapped { IfOk result (λ P. P ≡ mapped (with_spaces spaces) pool.now) }
    ensures lines { IfOk result (λ _. KeepsCells (with_spaces spaces) pool.now) }
    ensures long { IfErr result (λ fault. fault ≡ Long → ¬ KeepsCells (with_spaces spaces) pool.now) }
{
    few_line_cells(pool);
    map_cells(alloc, pool, &mut Indent::new(spaces))
}

/// The pool, in which no line has the spaces that it began with, or its first so many of them. Refused only where memory runs out.
pub fn dedented(alloc: Global, pool: &Pool, spaces: u64) -> Result<Pool, NoMemory>
    requires { IsValid pool.now }
    ensures { IfOk result (λ P. P ≡ mapped (without_leading spaces) pool.now) }
{
    few_line_cells(pool);
    match map_cells(alloc, pool, &mut Dedent::new(spaces)) {
        Ok(mapped) => Ok(mapped),
        Err(ChangeFault::Memory) => Err(NoMemory),
        Err(ChangeFault::Long) => unreachable!(),
    }
}

/// Puts spaces before each line.
#[derive(Drop)]
pub struct Indent {
    /// How many spaces come before a line.
    pub spaces: u64,
    /// How many calls there were.
    pub asked: u64,
}

impl Indent {
    /// So many spaces before each line.
    pub fn new(spaces: u64) -> Indent
        ensures spaces { result.spaces ≡ spaces }
        ensures asked { result.asked ≡ 0 }
    {
        Indent { spaces, asked: 0 }
    }
}

impl Change for Indent {
    ghost asked = { λ it. it.asked };

    ghost image = { λ it text. with_spaces it.spaces text };

    fn change(&mut self, alloc: Global, old: &str) -> Result<String, NoMemory> {
        self.asked += 1;
        let length = old.len().saturating_add(self.spaces as usize);
        let mut text = String::with_capacity(alloc, length)?;
        for _column in 0..self.spaces {
            text.push(' ')?;
        }
        text.push_str(old)?;
        Ok(text)
    }
}

/// Takes the spaces away that a line begins with, at most so many.
#[derive(Drop)]
pub struct Dedent {
    /// How many spaces are taken away at most.
    pub spaces: u64,
    /// How many calls there were.
    pub asked: u64,
}

impl Dedent {
    /// At most so many spaces away from each line.
    pub fn new(spaces: u64) -> Dedent
        ensures spaces { result.spaces ≡ spaces }
        ensures asked { result.asked ≡ 0 }
    {
        Dedent { spaces, asked: 0 }
    }
}

impl Change for Dedent {
    ghost asked = { λ it. it.asked };

    ghost image = { λ it text. without_leading it.spaces text };

    fn change(&mut self, alloc: Global, old: &str) -> Result<String, NoMemory> {
        self.asked += 1;
        Ok(String::from_str(alloc, without_spaces(old, self.spaces))?)
    }
}

// The text without the spaces that it begins with, or without the first so many of them.
fn without_spaces(text: &str, most: u64) -> &str
    ensures { result.now ≡ without_leading most text.now }
{
    let mut rest = text;
    for _space in 0..most {
        let Some(shorter) = rest.strip_prefix(' ') else {
            return rest;
        };
        rest = shorter;
    }
    rest
}
