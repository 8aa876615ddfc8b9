//! Pools with their lines changed.
ghost use Rattle.std.specs.Prelude.{IfOk};
ghost use Rattle.pool_check.specs.Damages.{IsValid};

use crate::documents::present_pool;
use elem_core::{CODE_BITS, NoMemory, Text};
use pool_check::{Checked, check};
use pool_map::{Change, ChangeFault, dedented, few_line_cells, indented, map_cells};
use pool_text::{Damage, Pool, to_bytes};
use std::alloc::Global;
use std::test::Fail;

// The pool of a document that passes all tests, or what is wrong with it.
fn valid_pool(alloc: Global, bytes: &[u8]) -> Result<Pool, Damage>
    ensures { IfOk result IsValid }
{
    let checked: Checked<Text> = check(alloc, present_pool(alloc, bytes, CODE_BITS)?)?;
    Ok(checked.into_pool())
}

// A new space, two equal lines as two cells, and one cell that is a key and a line; how many spaces come before each line, and the
// document with them.
const INDENTED: [(&[u8], u64, &[u8]); 3] = [
    (
        b"{\"bits\":64,\"format\":\"ewig-pool\",\"history\":4294967295,\"roots\":[2,3,4,5],\"rows\":[[\"m\",0,0,0,[]],[\"m\",0,0,0,[]],[\"s\",[0,1]],[\"m\",0,0,0,[]],[\"l\",[]],[\"l\",[]]],\"version\":3}",
        7,
        b"{\"bits\":64,\"format\":\"ewig-pool\",\"history\":4294967295,\"roots\":[2,3,4,5],\"rows\":[[\"m\",0,0,0,[]],[\"m\",0,0,0,[]],[\"s\",[0,1]],[\"m\",0,0,0,[]],[\"l\",[]],[\"l\",[]]],\"version\":3}",
    ),
    (
        b"{\"bits\":64,\"format\":\"ewig-pool\",\"history\":4294967295,\"roots\":[7,8,9,10],\"rows\":[[\"c\",\"a\"],[\"c\",\"x\"],[\"c\",\"x\"],[\"l\",[1,2]],[\"p\",[0,3]],[\"m\",0,4096,0,[4]],[\"m\",0,0,0,[]],[\"s\",[5,6]],[\"m\",0,0,0,[]],[\"l\",[]],[\"l\",[]]],\"version\":3}",
        2,
        b"{\"bits\":64,\"format\":\"ewig-pool\",\"history\":4294967295,\"roots\":[7,8,9,10],\"rows\":[[\"c\",\"a\"],[\"c\",\"  x\"],[\"c\",\"  x\"],[\"l\",[1,2]],[\"p\",[0,3]],[\"m\",0,4096,0,[4]],[\"m\",0,0,0,[]],[\"s\",[5,6]],[\"m\",0,0,0,[]],[\"l\",[]],[\"l\",[]]],\"version\":3}",
    ),
    (
        b"{\"bits\":64,\"format\":\"ewig-pool\",\"history\":4294967295,\"roots\":[5,6,7,8],\"rows\":[[\"c\",\"a\"],[\"l\",[0]],[\"p\",[0,1]],[\"m\",0,4096,0,[2]],[\"m\",0,0,0,[]],[\"s\",[3,4]],[\"m\",0,0,0,[]],[\"l\",[]],[\"l\",[]]],\"version\":3}",
        1,
        b"{\"bits\":64,\"format\":\"ewig-pool\",\"history\":4294967295,\"roots\":[6,7,8,9],\"rows\":[[\"c\",\"a\"],[\"c\",\" a\"],[\"l\",[1]],[\"p\",[0,2]],[\"m\",0,4096,0,[3]],[\"m\",0,0,0,[]],[\"s\",[4,5]],[\"m\",0,0,0,[]],[\"l\",[]],[\"l\",[]]],\"version\":3}",
    ),
];

// The document with so many spaces before each line.
fn indented_text(alloc: Global, bytes: &[u8], spaces: u64) -> Result<Vec<u8>, Fail> {
    let pool = valid_pool(alloc, bytes)?;
    let mapped = indented(alloc, &pool, spaces)?;
    Ok(to_bytes(alloc, &mapped)?)
}

// The document without so many spaces before each line.
fn dedented_text(alloc: Global, bytes: &[u8], spaces: u64) -> Result<Vec<u8>, Fail> {
    let pool = valid_pool(alloc, bytes)?;
    let mapped = dedented(alloc, &pool, spaces)?;
    Ok(to_bytes(alloc, &mapped)?)
}

#[test]
fn puts_spaces_before_lines(rt: HostRuntime) -> Result<(), Fail> {
    for (bytes, spaces, new) in INDENTED {
        let text = indented_text(rt.alloc(), bytes, spaces)?;
        assert!(rt; text.as_slice() == new, "{spaces} spaces");
    }
    Ok(())
}

// More spaces than the lines have are taken away: the document that had none comes back.
#[test]
fn takes_spaces_away_that_came_before(rt: HostRuntime) -> Result<(), Fail> {
    for (bytes, spaces, new) in &INDENTED[..2] {
        let text = dedented_text(rt.alloc(), new, spaces.saturating_add(3))?;
        assert!(rt; text.as_slice() == *bytes, "{spaces} spaces");
    }
    Ok(())
}

// Lines with spaces and tabs at their fronts, and without one space of each, and without all.
#[test]
fn takes_only_spaces_away(rt: HostRuntime) -> Result<(), Fail> {
    let old =
        b"{\"bits\":64,\"format\":\"ewig-pool\",\"history\":4294967295,\"roots\":[9,10,11,12],\"rows\":[[\"c\",\"a\"],[\"c\",\"   x \"],[\"c\",\" \\t y\"],[\"c\",\"\\t z\"],[\"c\",\"  \"],[\"l\",[1,2,3,4]],[\"p\",[0,5]],[\"m\",0,4096,0,[6]],[\"m\",0,0,0,[]],[\"s\",[7,8]],[\"m\",0,0,0,[]],[\"l\",[]],[\"l\",[]]],\"version\":3}";
    let new: [(u64, &[u8]); 2] = [
        (
            1,
            b"{\"bits\":64,\"format\":\"ewig-pool\",\"history\":4294967295,\"roots\":[9,10,11,12],\"rows\":[[\"c\",\"a\"],[\"c\",\"  x \"],[\"c\",\"\\t y\"],[\"c\",\"\\t z\"],[\"c\",\" \"],[\"l\",[1,2,3,4]],[\"p\",[0,5]],[\"m\",0,4096,0,[6]],[\"m\",0,0,0,[]],[\"s\",[7,8]],[\"m\",0,0,0,[]],[\"l\",[]],[\"l\",[]]],\"version\":3}",
        ),
        (
            9,
            b"{\"bits\":64,\"format\":\"ewig-pool\",\"history\":4294967295,\"roots\":[9,10,11,12],\"rows\":[[\"c\",\"a\"],[\"c\",\"x \"],[\"c\",\"\\t y\"],[\"c\",\"\\t z\"],[\"c\",\"\"],[\"l\",[1,2,3,4]],[\"p\",[0,5]],[\"m\",0,4096,0,[6]],[\"m\",0,0,0,[]],[\"s\",[7,8]],[\"m\",0,0,0,[]],[\"l\",[]],[\"l\",[]]],\"version\":3}",
        ),
    ];
    for (spaces, bytes) in new {
        let text = dedented_text(rt.alloc(), old.as_slice(), spaces)?;
        assert!(rt; text.as_slice() == bytes, "{spaces} spaces");
    }
    Ok(())
}

// Why so many spaces don't go before the lines.
fn indent_fault(alloc: Global, bytes: &[u8], spaces: u64) -> Result<Option<ChangeFault>, Damage> {
    let pool = valid_pool(alloc, bytes)?;
    Ok(indented(alloc, &pool, spaces).err())
}

// A line of one byte takes 65,535 spaces, and no more.
#[test]
fn refuses_lines_that_become_too_long(rt: HostRuntime) -> Result<(), Fail> {
    let long = indented_text(rt.alloc(), INDENTED[1].0, 65_535)?;
    let back = dedented_text(rt.alloc(), long.as_slice(), 65_535)?;
    assert!(rt; back.as_slice() == INDENTED[1].0);
    let fault = indent_fault(rt.alloc(), INDENTED[1].0, 65_536)?;
    assert!(rt; fault == Some(ChangeFault::Long));
    Ok(())
}

// Puts a mark before each line, and counts its calls.
#[derive(Drop)]
struct Marked {
    calls: u64,
}

impl Change for Marked {
    ghost use Rattle.std.specs.Prelude.{◌∷◌};

    ghost asked = { λ it. it.calls };

    ghost image = { λ it text. 62 ∷ text };

    fn change(&mut self, alloc: Global, old: &str) -> Result<String, NoMemory> {
        self.calls += 1;
        let mut text = String::from_str(alloc, ">")?;
        text.push_str(old)?;
        Ok(text)
    }
}

// A document in which one cell stands at a hundred places, and one whose cell is a key and a line; how many calls change the lines,
// and the document with them changed.
const MARKED: [(&[u8], u64, &[u8]); 2] = [
    (
        b"{\"bits\":64,\"format\":\"ewig-pool\",\"history\":4294967295,\"roots\":[8,9,10,11],\"rows\":[[\"c\",\"a\"],[\"c\",\"x\"],[\"l\",[1,1,1,1,1,1,1,1,1,1,1,1,1,1,1,1,1,1,1,1,1,1,1,1,1,1,1,1,1,1,1,1]],[\"l\",[1,1,1,1]],[\"i\",1,[2,2,2,3]],[\"p\",[0,4]],[\"m\",0,4096,0,[5]],[\"m\",0,0,0,[]],[\"s\",[6,7]],[\"m\",0,0,0,[]],[\"l\",[]],[\"l\",[]]],\"version\":3}",
        1,
        b"{\"bits\":64,\"format\":\"ewig-pool\",\"history\":4294967295,\"roots\":[8,9,10,11],\"rows\":[[\"c\",\"a\"],[\"c\",\">x\"],[\"l\",[1,1,1,1,1,1,1,1,1,1,1,1,1,1,1,1,1,1,1,1,1,1,1,1,1,1,1,1,1,1,1,1]],[\"l\",[1,1,1,1]],[\"i\",1,[2,2,2,3]],[\"p\",[0,4]],[\"m\",0,4096,0,[5]],[\"m\",0,0,0,[]],[\"s\",[6,7]],[\"m\",0,0,0,[]],[\"l\",[]],[\"l\",[]]],\"version\":3}",
    ),
    (
        b"{\"bits\":64,\"format\":\"ewig-pool\",\"history\":4294967295,\"roots\":[5,6,7,8],\"rows\":[[\"c\",\"a\"],[\"l\",[0]],[\"p\",[0,1]],[\"m\",0,4096,0,[2]],[\"m\",0,0,0,[]],[\"s\",[3,4]],[\"m\",0,0,0,[]],[\"l\",[]],[\"l\",[]]],\"version\":3}",
        1,
        b"{\"bits\":64,\"format\":\"ewig-pool\",\"history\":4294967295,\"roots\":[6,7,8,9],\"rows\":[[\"c\",\"a\"],[\"c\",\">a\"],[\"l\",[1]],[\"p\",[0,2]],[\"m\",0,4096,0,[3]],[\"m\",0,0,0,[]],[\"s\",[4,5]],[\"m\",0,0,0,[]],[\"l\",[]],[\"l\",[]]],\"version\":3}",
    ),
];

// The document with its lines marked, and how many calls that took.
fn with_marks(alloc: Global, bytes: &[u8]) -> Result<(Vec<u8>, u64), Fail> {
    let pool = valid_pool(alloc, bytes)?;
    let mut change = Marked { calls: 0 };
    few_line_cells(&pool);
    let mapped = map_cells(alloc, &pool, &mut change)?;
    Ok((to_bytes(alloc, &mapped)?, change.calls))
}

#[test]
fn changes_each_line_cell_once(rt: HostRuntime) -> Result<(), Fail> {
    for (bytes, calls, new) in MARKED {
        let (text, count) = with_marks(rt.alloc(), bytes)?;
        assert!(rt; count == calls && text.as_slice() == new);
    }
    Ok(())
}
