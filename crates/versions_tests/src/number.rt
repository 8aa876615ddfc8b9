//! An element whose values can be written in several ways, saved and loaded: a number, as `7` and `07`.
use crate::samples::text;
use elem_core::{Code, Element, Stored, Text};
use std::alloc::Global;
use std::process::Abort;
use std::test::Fail;
use versions::{Lists, Sets, Version};
use versions_pool::{load_lists, save_lists, sets_after_save};

/// A number as a line writes it. It keeps the line, by which it goes: `7` and `07` are two.
#[derive(Debug, Drop, PartialEq, Eq, PartialOrd, Ord)]
struct Number {
    line: Text,
}

impl Number {
    // The number, and none where the line is no number.
    fn value(&self) -> Option<u32> {
        self.line.text().parse().ok()
    }
}

impl Element for Number {
    ghost use Rattle.elem_core.specs.Codes.{text_code};
    ghost use Rattle.std.specs.FinMap.{nat_cmp-IsAntisymmetric, slice_cmp-IsAntisymmetric};
    ghost use Rattle.std.proofs.Common.{ap};

    ghost code_of = { λ number. text_code number.line };

    fn code(&self) -> Code {
        Element::code(&self.line)
    }

    ghost equal_codes = { λ x y same. ap text_code (slice_cmp-IsAntisymmetric nat_cmp-IsAntisymmetric x.line y.line same) };
}

impl Stored for Number {
    ghost use Rattle.std.specs.Prelude.{refl};

    ghost bytes_of = { λ number. number.line };

    ghost of_bytes = { λ bytes. record { line = bytes } };

    fn text(&self) -> &str {
        self.line.text()
    }

    fn fits(text: &str) -> bool {
        Text::fits(text)
    }

    fn from_text(text: String) -> Result<Number, String> {
        let line = Text::new(text)?;
        Ok(Number { line })
    }

    ghost reads_back = { λ x. refl };

    ghost text_order = { λ x y. refl };

    ghost text_codes = { λ x. refl };
}

// The list of `7`, `07` and `x`, as the version 0.
const THREE: &[u8] =
    b"{\"format\":\"naipselu-lists\",\"names\":[0],\"roots\":[3],\"rows\":[[\"c\",\"7\"],[\"c\",\"07\"],[\"c\",\"x\"],[\"l\",[0,1,2]]],\"version\":1}";

// The text at the index of the version 0, and its number.
fn read(lists: &Lists<Number>, index: u32) -> Option<(&str, Option<u32>)> {
    let version = Version::from_number(0);
    if !lists.holds(version) {
        return None;
    }
    let number = lists.get(version, index)?;
    Some((number.text(), number.value()))
}

fn check_saves_lines(rt: &impl Abort, alloc: Global, lists: &Lists<Number>) -> Result<(), Fail> {
    assert!(rt; read(lists, 0) == Some(("7", Some(7))));
    assert!(rt; read(lists, 1) == Some(("07", Some(7))));
    assert!(rt; read(lists, 2) == Some(("x", None)));
    let bytes = save_lists(alloc, lists)?;
    assert!(rt; bytes.as_slice() == THREE);
    Ok(())
}

#[test]
fn saves_the_lines_of_numbers(rt: HostRuntime) -> Result<(), Fail> {
    let lists = load_lists(rt.alloc(), THREE)?;
    check_saves_lines(&rt, rt.alloc(), &lists)
}

// The set with the number of the line besides, of a version that is held.
fn with(rt: &impl Abort, sets: &mut Sets<Number>, version: Version, line: Text) -> Version {
    assert!(rt; sets.holds(version));
    match sets.insert(version, Number { line }) {
        Ok(more) => more,
        Err(_) => panic!(rt; "memory"),
    }
}

// How many numbers the version has, and whether that of the line is one; none where it isn't held.
fn counts(sets: &Sets<Number>, version: Version, line: Text) -> Option<(usize, bool)> {
    if !sets.holds(version) {
        return None;
    }
    Some((sets.len(version), sets.contains(version, &Number { line })))
}

// The sets of `7`, and of `07` besides.
fn one_and_two(
    rt: &impl Abort,
    alloc: Global,
    sets: &mut Sets<Number>,
) -> Result<(Version, Version), Fail> {
    let none = sets.empty()?;
    let one = with(rt, sets, none, text(rt, alloc, "7"));
    let two = with(rt, sets, one, text(rt, alloc, "07"));
    Ok((one, two))
}

// Whether `07` is in the second of these sets and not in the first.
fn are_kept(
    rt: &impl Abort,
    alloc: Global,
    sets: &Sets<Number>,
    one: Version,
    two: Version,
) -> bool {
    counts(sets, one, text(rt, alloc, "07")) == Some((1, false))
        && counts(sets, two, text(rt, alloc, "07")) == Some((2, true))
}

fn check_saves_sets(rt: &impl Abort, alloc: Global, sets: &mut Sets<Number>) -> Result<(), Fail> {
    let (one, two) = one_and_two(rt, alloc, sets)?;
    let again = sets_after_save(alloc, sets)?;
    assert!(rt; are_kept(rt, alloc, &again, one, two));
    Ok(())
}

#[test]
fn saves_sets_of_numbers(rt: HostRuntime) -> Result<(), Fail> {
    let mut sets = Sets::new(rt.alloc());
    check_saves_sets(&rt, rt.alloc(), &mut sets)
}
