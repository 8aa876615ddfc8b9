//! The calls for every argument: each that takes memory, a version that isn't held, and an index past the end.
use elem_core::Num;
use total_versions::{Refusal, lists, maps, sets};
use versions::{Lists, Maps, Sets, Version};

// The version of the number that a call answered.
fn version(answer: Result<usize, Refusal>) -> Result<Version, Refusal> {
    Ok(Version::from_number(answer?))
}

// The list of 1, 5 and 2.
fn grown(store: &mut Lists<Num>) -> Result<Version, Refusal> {
    let none = version(lists::empty(store))?;
    let list = version(lists::push(store, none, Num(1)))?;
    lists::push_here(store, list, Num(2))?;
    version(lists::insert(store, list, 1, Num(5)))
}

// The list with 9 in place of its first number, 7 in place of its third, and without its second.
fn changed(store: &mut Lists<Num>, list: Version) -> Result<Version, Refusal> {
    let copy = version(lists::copy(store, list))?;
    lists::set_here(store, copy, 0, Num(9))?;
    let set = version(lists::set(store, copy, 2, Num(7)))?;
    version(lists::remove(store, set, 1))
}

// The list, behind it all but its last number, and of both the second to the fourth.
fn cut(store: &mut Lists<Num>, list: Version) -> Result<Version, Refusal> {
    let popped = version(lists::pop(store, list))?;
    let joined = version(lists::concat(store, list, popped))?;
    lists::pop_here(store, joined)?;
    version(lists::slice(store, joined, 1, 4))
}

// Whether the version has these numbers, in order and no more.
fn reads(store: &Lists<Num>, version: Version, numbers: &[u32]) -> bool {
    let mut index: u32 = 0;
    for number in numbers {
        if lists::get(store, version, index) != Ok(&Num(*number)) {
            return false;
        }
        index = index.wrapping_add(1);
    }
    lists::len(store, version) == Ok(numbers.len())
        && lists::get(store, version, index) == Err(Refusal::Range)
}

// Whether the version is given up, and nothing is made of it then.
fn gives_up(store: &mut Lists<Num>, version: Version) -> bool {
    lists::forget(store, version).is_ok()
        && lists::len(store, version) == Err(Refusal::NoVersion)
        && lists::push(store, version, Num(0)) == Err(Refusal::NoVersion)
}

// Whether the calls of lists make what they say.
fn makes_lists(store: &mut Lists<Num>) -> Result<bool, Refusal> {
    let list = grown(store)?;
    let edited = changed(store, list)?;
    let part = cut(store, list)?;
    Ok(
        reads(store, list, &[1, 5, 2])
            && reads(store, edited, &[9, 7])
            && reads(store, part, &[5, 2, 1])
            && gives_up(store, part),
    )
}

#[test]
fn answers_of_lists(rt: HostRuntime) {
    let mut store = Lists::new(rt.alloc());
    assert!(rt; makes_lists(&mut store) == Ok(true));
}

// The set of 4 and 7.
fn keys(store: &mut Sets<Num>) -> Result<Version, Refusal> {
    let none = version(sets::empty(store))?;
    let set = version(sets::insert(store, none, Num(4)))?;
    sets::insert_here(store, set, Num(7))?;
    version(sets::copy(store, set))
}

// Of the set of 4 and 7 that of 4.
fn merged(store: &mut Sets<Num>, set: Version) -> Result<Version, Refusal> {
    let seven = version(sets::remove(store, set, &Num(4)))?;
    let both = version(sets::both(store, set, seven))?;
    let four = version(sets::less(store, set, both))?;
    let union = version(sets::union(store, four, seven))?;
    version(sets::remove_here(store, union, &Num(7)))
}

// Whether the version has so many keys, and whether it has 4 and 7.
fn has(store: &Sets<Num>, version: Version, len: usize, four: bool, seven: bool) -> bool {
    sets::len(store, version) == Ok(len)
        && sets::contains(store, version, &Num(4)) == Ok(four)
        && sets::contains(store, version, &Num(7)) == Ok(seven)
}

// Whether the calls of sets make what they say.
fn makes_sets(store: &mut Sets<Num>) -> Result<bool, Refusal> {
    let set = keys(store)?;
    let four = merged(store, set)?;
    Ok(has(store, set, 2, true, true) && has(store, four, 1, true, false))
}

#[test]
fn answers_of_sets(rt: HostRuntime) {
    let mut store = Sets::new(rt.alloc());
    assert!(rt; makes_sets(&mut store) == Ok(true));
}

// The map of 40 at 4 and of 70 at 7.
fn entries(store: &mut Maps<Num, u32>) -> Result<Version, Refusal> {
    let none = version(maps::empty(store))?;
    let map = version(maps::insert(store, none, Num(4), 40))?;
    maps::insert_here(store, map, Num(7), 70)?;
    version(maps::copy(store, map))
}

// Of the map of 4 and 7 that of 4.
fn united(store: &mut Maps<Num, u32>, map: Version) -> Result<Version, Refusal> {
    let seven = version(maps::remove(store, map, &Num(4)))?;
    let both = version(maps::both(store, map, seven))?;
    let four = version(maps::less(store, map, both))?;
    let union = version(maps::union(store, four, seven))?;
    version(maps::remove_here(store, union, &Num(7)))
}

// Whether the version has so many keys, and this at 4.
fn finds(
    store: &Maps<Num, u32>,
    version: Version,
    len: usize,
    value: Result<&u32, Refusal>,
) -> bool {
    maps::len(store, version) == Ok(len) && maps::get(store, version, &Num(4)) == value
}

// Whether the calls of maps make what they say.
fn makes_maps(store: &mut Maps<Num, u32>) -> Result<bool, Refusal> {
    let map = entries(store)?;
    let four = united(store, map)?;
    maps::remove_here(store, map, &Num(4))?;
    Ok(finds(store, four, 1, Ok(&40)) && finds(store, map, 1, Err(Refusal::Range)))
}

#[test]
fn answers_of_maps(rt: HostRuntime) {
    let mut store = Maps::new(rt.alloc());
    assert!(rt; makes_maps(&mut store) == Ok(true));
}
