//! Pools whose roots are of other kinds than a space's.
ghost use Rattle.std.specs.Prelude.{◌≡◌, ◌<◌, true, IfOk, IfSome, [], ◌∷◌, length, slice_index};
ghost use Rattle.node_heap.specs.Heap.{hold_count, half_holds};
ghost use Rattle.rrb_core.specs.Vector.{IsGoodVector};
ghost use Rattle.pool_text.specs.declared.pool.Pool.{Pool};
ghost use Rattle.pool_check.specs.Roots.{roots_are_of};
ghost use Rattle.pool_check.specs.declared.root.RootKind.TheVariants.{Lines, Cells, CellMap, LinesMap};
ghost use Rattle.pool_load.specs.Kinds.{IsMapTo, IsLines};
ghost use Rattle.pool_load.specs.Loads.{AreRowsLoaded};

use crate::documents::present_pool;
use champ_kinds::MapRef;
use elem_core::{CODE_BITS, Element, Line, NoMemory, Stored, Text, text_of};
use node_heap::{Heap, Link};
use pool_check::{CheckedRoots, RootKind, check_open, check_roots};
use pool_load::{load_roots, loaded_roots_are_of_kinds, loaded_roots_fit};
use pool_map::{Change, few_line_cells, map_cells};
use pool_order::order;
use pool_text::{Damage, MOST_HISTORY, Places, pool_of, to_bytes};
use rrb_core::FlexRef;
use std::alloc::Global;
use std::test::Fail;

// The lines `a` and `b`, the set of `a`, the map from it to itself, and the map from it to the lines.
const CONTAINERS: &[u8] =
    b"{\"bits\":64,\"format\":\"ewig-pool\",\"history\":4294967295,\"roots\":[2,3,5,7],\"rows\":[[\"c\",\"a\"],[\"c\",\"b\"],[\"l\",[0,1]],[\"m\",0,4096,0,[0]],[\"p\",[0,0]],[\"m\",0,4096,0,[4]],[\"p\",[0,2]],[\"m\",0,4096,0,[6]]],\"version\":3}";

const KINDS: [RootKind; 4] = [
    RootKind::Lines,
    RootKind::Cells,
    RootKind::CellMap,
    RootKind::LinesMap,
];

// What its roots have to be, and what fails: nothing where they are that, also since the key is a name, and the test of kinds where
// two stand the other way round or one is too many.
const CHECKS: [(&[RootKind], Option<Damage>); 4] = [
    (
        &[
            RootKind::Lines,
            RootKind::Cells,
            RootKind::CellMap,
            RootKind::LinesMap,
        ],
        None,
    ),
    (
        &[
            RootKind::Lines,
            RootKind::Names,
            RootKind::CellMap,
            RootKind::NamedLines,
        ],
        None,
    ),
    (
        &[
            RootKind::Cells,
            RootKind::Lines,
            RootKind::CellMap,
            RootKind::LinesMap,
        ],
        Some(Damage::Kind),
    ),
    (
        &[RootKind::Lines, RootKind::Cells, RootKind::CellMap],
        Some(Damage::Kind),
    ),
];

#[test]
fn checks_roots_of_other_kinds(rt: HostRuntime) -> Result<(), Fail> {
    for (kinds, damage) in CHECKS {
        let pool = present_pool(rt.alloc(), CONTAINERS, CODE_BITS)?;
        let answer = check_roots::<Text>(rt.alloc(), pool, kinds);
        assert_eq!(rt; answer.err(), damage);
    }
    Ok(())
}

// A space by its kinds: a state, versions, and two histories.
#[test]
fn checks_a_space_by_its_kinds(rt: HostRuntime) -> Result<(), Fail> {
    let bytes =
        b"{\"bits\":64,\"format\":\"ewig-pool\",\"history\":0,\"roots\":[20,28,29,30],\"rows\":[[\"c\",\"list\"],[\"l\",[]],[\"p\",[0,1]],[\"c\",\"letters\"],[\"l\",[]],[\"p\",[3,4]],[\"c\",\"notes\"],[\"l\",[]],[\"p\",[6,7]],[\"m\",1,536879104,0,[5,8]],[\"c\",\"draft\"],[\"c\",\"one\"],[\"l\",[11]],[\"p\",[10,12]],[\"c\",\"diary\"],[\"l\",[]],[\"p\",[14,15]],[\"m\",1,1048704,0,[13,16]],[\"m\",0,2,5120,[2,9,17]],[\"m\",0,0,0,[]],[\"s\",[18,19]],[\"c\",\"monday\"],[\"l\",[]],[\"p\",[10,22]],[\"m\",1,1048704,0,[23,16]],[\"m\",0,2,5120,[2,9,24]],[\"s\",[25,19]],[\"p\",[21,26]],[\"m\",0,33554432,0,[27]],[\"l\",[]],[\"l\",[]]],\"version\":3}";
    let pool = present_pool(rt.alloc(), bytes.as_slice(), CODE_BITS)?;
    let kinds = [
        RootKind::State,
        RootKind::Versions,
        RootKind::History,
        RootKind::History,
    ];
    let answer = check_roots::<Text>(rt.alloc(), pool, &kinds);
    assert_eq!(rt; answer.err(), None);
    Ok(())
}

// Five roots, and what fails where the last is of another kind.
const FIVE: [(RootKind, Option<Damage>); 2] = [
    (RootKind::Cells, None),
    (RootKind::Lines, Some(Damage::Kind)),
];

// Places of these rows.
fn places(alloc: Global, rows: &[u64]) -> Result<Places, NoMemory> {
    let mut made = Vec::with_capacity(alloc, rows.len())?;
    for row in rows {
        made.push(*row)?;
    }
    Ok(Places::from_vec(made))
}

#[test]
fn checks_five_roots(rt: HostRuntime) -> Result<(), Fail> {
    for (last, damage) in FIVE {
        let mut pool = present_pool(rt.alloc(), CONTAINERS, CODE_BITS)?;
        pool.roots = places(rt.alloc(), &[2, 3, 5, 7, 3])?;
        let kinds = [
            RootKind::Lines,
            RootKind::Cells,
            RootKind::CellMap,
            RootKind::LinesMap,
            last,
        ];
        let answer = check_roots::<Text>(rt.alloc(), pool, &kinds);
        assert_eq!(rt; answer.err(), damage);
    }
    Ok(())
}

// They are no space.
#[test]
fn tells_containers_from_a_space(rt: HostRuntime) -> Result<(), Fail> {
    let pool = present_pool(rt.alloc(), CONTAINERS, CODE_BITS)?;
    let answer = check_open(rt.alloc(), pool);
    assert_eq!(rt; answer.err(), Some(Damage::Kind));
    Ok(())
}

// The space without buffers, also with its versions before its state, and whether its rows stand in order.
const OPENED: [(&[u8], bool); 2] = [
    (
        b"{\"bits\":64,\"format\":\"ewig-pool\",\"history\":4294967295,\"roots\":[2,3,4,5],\"rows\":[[\"m\",0,0,0,[]],[\"m\",0,0,0,[]],[\"s\",[0,1]],[\"m\",0,0,0,[]],[\"l\",[]],[\"l\",[]]],\"version\":3}",
        true,
    ),
    (
        b"{\"bits\":64,\"format\":\"ewig-pool\",\"history\":4294967295,\"roots\":[3,2,4,5],\"rows\":[[\"m\",0,0,0,[]],[\"m\",0,0,0,[]],[\"m\",0,0,0,[]],[\"s\",[0,1]],[\"l\",[]],[\"l\",[]]],\"version\":3}",
        false,
    ),
];

#[test]
fn opens_a_space_in_any_order(rt: HostRuntime) -> Result<(), Fail> {
    for (bytes, in_order) in OPENED {
        let pool = present_pool(rt.alloc(), bytes, CODE_BITS)?;
        let tested = check_open(rt.alloc(), pool)?;
        assert!(rt; tested.is_in_order(rt.alloc())? == in_order);
    }
    Ok(())
}

// The containers that the bytes stand for, checked, or what is wrong with them.
fn containers<T: Stored>(alloc: Global, bytes: &[u8]) -> Result<CheckedRoots<T>, Damage>
    ensures kinds { IfOk result (λ checked. roots_are_of (Lines ∷ Cells ∷ CellMap ∷ LinesMap ∷ []) checked ≡ true) }
    ensures many { IfOk result (λ checked. length checked.roots ≡ 4) }
    ensures bits { IfOk result (λ checked. checked.bits ≡ CODE_BITS) }
{
    let pool = present_pool(alloc, bytes, CODE_BITS)?;
    check_roots(
        alloc,
        pool,
        &[
            RootKind::Lines,
            RootKind::Cells,
            RootKind::CellMap,
            RootKind::LinesMap,
        ],
    )
}

// They are loaded: the links of their roots.
fn loaded<T: Stored>(alloc: Global, heap: &mut Heap<T>, bytes: &[u8]) -> Result<Vec<Link>, Fail>
    requires few { hold_count heap.old < half_holds }
    ensures many { IfOk result (λ roots. length roots.items ≡ 4) }
    ensures rows { IfOk result (λ roots. (P : Pool) × AreRowsLoaded T.bytes_of heap.new roots.items P) }
    ensures lines { IfOk result (λ roots. IsGoodVector heap.new (slice_index roots.items 0)) }
    ensures map { IfOk result (λ roots. IsMapTo T.cmp T.code_of CODE_BITS heap.new (IsLines T.cmp T.code_of CODE_BITS heap.new) (slice_index roots.items 3)) }
{
    let checked = containers(alloc, bytes)?;
    let roots = load_roots(alloc, heap, checked)?;
    loaded_roots_are_of_kinds::<T>();
    Ok(roots)
}

/// The document of what loaded roots reach, which keeps so many states.
pub fn saved<T: Stored>(
    alloc: Global,
    heap: &Heap<T>,
    roots: &[Link],
    history: u32,
) -> Result<Vec<u8>, NoMemory>
    requires { (P : Pool) × AreRowsLoaded T.bytes_of heap.now roots.now P }
{
    loaded_roots_fit::<T>();
    let listed = order(alloc, heap, roots)?;
    let pool = pool_of(alloc, heap, &listed, roots, CODE_BITS, history)?;
    to_bytes(alloc, &pool)
}

// The text at the index of a vector of cells.
fn text_at(heap: &Heap<Text>, root: Link, index: u32) -> Option<&str>
    requires { IsGoodVector heap.now root }
{
    let cell = FlexRef::at(root).get(heap, index)?;
    Some(heap.value(cell)?.text())
}

// The vector that a map has at the key.
fn lines_at<T: Element>(heap: &Heap<T>, root: Link, key: &T) -> Option<Link>
    requires { IsMapTo T.cmp T.code_of CODE_BITS heap.now (IsLines T.cmp T.code_of CODE_BITS heap.now) root }
    ensures { IfSome result (λ l. IsGoodVector heap.now l) }
{
    MapRef::at(root, CODE_BITS).get(heap, key)
}

// What is loaded reads as the document says.
#[test]
fn loads_roots_of_other_kinds(rt: HostRuntime) -> Result<(), Fail> {
    let mut heap: Heap<Text> = Heap::new(rt.alloc());
    let roots = loaded(rt.alloc(), &mut heap, CONTAINERS)?;
    assert_eq!(rt; heap.live(), 8);
    assert_eq!(rt; text_at(&heap, roots[0], 0), Some("a"));
    assert_eq!(rt; text_at(&heap, roots[0], 1), Some("b"));
    let key = text_of(rt.alloc(), Line::new("a").expect(&rt, "a line"))?;
    let lines = lines_at(&heap, roots[3], &key).expect(&rt, "the key");
    assert_eq!(rt; text_at(&heap, lines, 1), Some("b"));
    Ok(())
}

// It is written as that document again.
#[test]
fn saves_roots_of_other_kinds(rt: HostRuntime) -> Result<(), Fail> {
    let mut heap: Heap<Text> = Heap::new(rt.alloc());
    let roots = loaded(rt.alloc(), &mut heap, CONTAINERS)?;
    let text = saved(rt.alloc(), &heap, &roots, MOST_HISTORY)?;
    assert_eq!(rt; text.as_slice(), CONTAINERS);
    Ok(())
}

// The same document whose last map has the set where its vector was.
#[test]
fn tells_the_damage_of_containers(rt: HostRuntime) -> Result<(), Fail> {
    let damaged =
        b"{\"bits\":64,\"format\":\"ewig-pool\",\"history\":4294967295,\"roots\":[2,3,5,7],\"rows\":[[\"c\",\"a\"],[\"c\",\"b\"],[\"l\",[0,1]],[\"m\",0,4096,0,[0]],[\"p\",[0,0]],[\"m\",0,4096,0,[4]],[\"p\",[0,3]],[\"m\",0,4096,0,[6]]],\"version\":3}";
    assert_eq!(rt;
        containers::<Text>(rt.alloc(), damaged.as_slice()).err(),
        Some(Damage::Kind)
    );
    Ok(())
}

// Quotes lines, as a letter does that answers another.
#[derive(Drop)]
struct Quote {
    calls: u64,
}

impl Change for Quote {
    ghost use Rattle.std.specs.Prelude.{◌∷◌};

    ghost asked = { λ quote. quote.calls };

    ghost image = { λ quote text. 62 ∷ 32 ∷ text };

    fn change(&mut self, alloc: Global, old: &str) -> Result<String, NoMemory> {
        self.calls += 1;
        let mut text = String::from_str(alloc, "> ")?;
        text.push_str(old)?;
        Ok(text)
    }
}

// The containers with their lines quoted, checked again. Keys, the set and the values that are cells stay.
fn quoted(alloc: Global, bytes: &[u8]) -> Result<CheckedRoots<Text>, Fail> {
    let checked = containers::<Text>(alloc, bytes)?;
    let pool = checked.pool();
    few_line_cells(pool);
    let mapped = map_cells(alloc, pool, &mut Quote { calls: 0 })?;
    Ok(check_roots(alloc, mapped, &KINDS)?)
}

#[test]
fn quotes_the_lines_of_containers(rt: HostRuntime) -> Result<(), Fail> {
    let new =
        b"{\"bits\":64,\"format\":\"ewig-pool\",\"history\":4294967295,\"roots\":[2,4,6,8],\"rows\":[[\"c\",\"> a\"],[\"c\",\"> b\"],[\"l\",[0,1]],[\"c\",\"a\"],[\"m\",0,4096,0,[3]],[\"p\",[3,3]],[\"m\",0,4096,0,[5]],[\"p\",[3,2]],[\"m\",0,4096,0,[7]]],\"version\":3}";
    let checked = quoted(rt.alloc(), CONTAINERS)?;
    assert_eq!(rt;
        to_bytes(rt.alloc(), checked.pool())?.as_slice(),
        new.as_slice()
    );
    Ok(())
}
