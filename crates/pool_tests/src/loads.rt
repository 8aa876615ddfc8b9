//! Documents that are checked, loaded, and written again, and the pools of some of their rows.
ghost use Rattle.std.specs.Prelude.{◌<◌};
ghost use Rattle.std.specs.List.{All};

use crate::documents::{checked_again, present_pool};
use crate::roots::saved;
use elem_core::{CODE_BITS, NoMemory, Text};
use node_heap::Heap;
use pool_check::{Checked, check};
use pool_load::{load, loaded_rows_are_listed, loaded_tries_are_good, loaded_vectors_are_good};
use pool_text::{Damage, MOST_HISTORY, pool_of_rows, to_bytes};
use std::alloc::Global;
use std::process::Abort;
use std::test::Fail;

// The pool that the bytes stand for, checked for a space of all bits, or what is wrong with them.
fn checked(alloc: Global, bytes: &[u8]) -> Result<Checked<Text>, Damage> {
    check(alloc, present_pool(alloc, bytes, CODE_BITS)?)
}

// Documents that fail no test: a new space, the same with its empty rows shared, two equal lines as two cells and as one, two names in a
// sub-node, and as many states in undo as it keeps; and how many rows each has.
const WHOLE: [(&[u8], usize); 6] = [
    (
        b"{\"bits\":64,\"format\":\"ewig-pool\",\"history\":4294967295,\"roots\":[2,3,4,5],\"rows\":[[\"m\",0,0,0,[]],[\"m\",0,0,0,[]],[\"s\",[0,1]],[\"m\",0,0,0,[]],[\"l\",[]],[\"l\",[]]],\"version\":3}",
        6,
    ),
    (
        b"{\"bits\":64,\"format\":\"ewig-pool\",\"history\":4294967295,\"roots\":[1,0,2,2],\"rows\":[[\"m\",0,0,0,[]],[\"s\",[0,0]],[\"l\",[]]],\"version\":3}",
        3,
    ),
    (
        b"{\"bits\":64,\"format\":\"ewig-pool\",\"history\":4294967295,\"roots\":[7,8,9,10],\"rows\":[[\"c\",\"a\"],[\"c\",\"x\"],[\"c\",\"x\"],[\"l\",[1,2]],[\"p\",[0,3]],[\"m\",0,4096,0,[4]],[\"m\",0,0,0,[]],[\"s\",[5,6]],[\"m\",0,0,0,[]],[\"l\",[]],[\"l\",[]]],\"version\":3}",
        11,
    ),
    (
        b"{\"bits\":64,\"format\":\"ewig-pool\",\"history\":4294967295,\"roots\":[6,7,8,9],\"rows\":[[\"c\",\"a\"],[\"c\",\"x\"],[\"l\",[1,1]],[\"p\",[0,2]],[\"m\",0,4096,0,[3]],[\"m\",0,0,0,[]],[\"s\",[4,5]],[\"m\",0,0,0,[]],[\"l\",[]],[\"l\",[]]],\"version\":3}",
        10,
    ),
    (
        b"{\"bits\":64,\"format\":\"ewig-pool\",\"history\":4294967295,\"roots\":[9,10,11,12],\"rows\":[[\"c\",\"a\"],[\"l\",[]],[\"p\",[0,1]],[\"c\",\"A\"],[\"l\",[]],[\"p\",[3,4]],[\"m\",1,8388624,0,[2,5]],[\"m\",0,0,4096,[6]],[\"m\",0,0,0,[]],[\"s\",[7,8]],[\"m\",0,0,0,[]],[\"l\",[]],[\"l\",[]]],\"version\":3}",
        13,
    ),
    (
        b"{\"bits\":64,\"format\":\"ewig-pool\",\"history\":1,\"roots\":[2,3,4,5],\"rows\":[[\"m\",0,0,0,[]],[\"m\",0,0,0,[]],[\"s\",[0,1]],[\"m\",0,0,0,[]],[\"l\",[2]],[\"l\",[]]],\"version\":3}",
        6,
    ),
];

// What a document becomes that is loaded and written again.
#[derive(Drop)]
struct Again {
    text: Vec<u8>,
    roots: usize,
    live: usize,
    made: u64,
}

// The document of what the rows of a checked document are once they are loaded, how many roots and rows there are, and how many rows
// were ever made.
fn loaded_again(alloc: Global, document: Checked<Text>) -> Result<Again, NoMemory> {
    let history = document.pool().history;
    let mut heap: Heap<Text> = Heap::new(alloc);
    let roots = load(alloc, &mut heap, document)?;
    let text = saved(alloc, &heap, &roots, history)?;
    Ok(Again {
        text,
        roots: roots.len(),
        live: heap.live(),
        made: heap.made(),
    })
}

#[test]
fn checks_and_loads_whole_documents(rt: HostRuntime) -> Result<(), Fail> {
    for (bytes, rows) in WHOLE {
        let document = checked(rt.alloc(), bytes)?;
        let again = loaded_again(rt.alloc(), document)?;
        assert!(rt; again.roots == 4 && again.live == rows && again.made == rows as u64);
        assert!(rt; again.text.as_slice() == bytes);
    }
    Ok(())
}

// The version of a checked document, and how many states it keeps.
fn version_and_history(alloc: Global, bytes: &[u8]) -> Result<(u32, u32), Damage> {
    let document = checked(alloc, bytes)?;
    Ok((document.pool().version, document.pool().history))
}

// A document of version 2, which says no history, is checked as it is, and written as one of version 3 with the greatest.
#[test]
fn checks_a_document_of_the_second_version(rt: HostRuntime) -> Result<(), Fail> {
    let second =
        b"{\"bits\":64,\"format\":\"ewig-pool\",\"roots\":[2,3,4,5],\"rows\":[[\"m\",0,0,0,[]],[\"m\",0,0,0,[]],[\"s\",[0,1]],[\"m\",0,0,0,[]],[\"l\",[2]],[\"l\",[]]],\"version\":2}";
    let third =
        b"{\"bits\":64,\"format\":\"ewig-pool\",\"history\":4294967295,\"roots\":[2,3,4,5],\"rows\":[[\"m\",0,0,0,[]],[\"m\",0,0,0,[]],[\"s\",[0,1]],[\"m\",0,0,0,[]],[\"l\",[2]],[\"l\",[]]],\"version\":3}";
    let (version, history) = version_and_history(rt.alloc(), second.as_slice())?;
    assert!(rt; version == 2 && history == MOST_HISTORY);
    let text = checked_again(rt.alloc(), second.as_slice(), CODE_BITS)?;
    assert!(rt; text.as_slice() == third.as_slice());
    Ok(())
}

// Each document fails the test beside it, and those before it in the order of the tests not.
const DAMAGED: [(&[u8], Damage); 17] = [
    (
        b"{\"bits\":64,\"format\":\"ewig-pool\",\"history\":4294967295,\"roots\":[0,0,0,0],\"rows\":[[\"l\",[0]]],\"version\":3}",
        Damage::Link,
    ),
    (
        b"{\"bits\":64,\"format\":\"ewig-pool\",\"history\":4294967295,\"roots\":[2,3,4,5],\"rows\":[[\"m\",0,0,0,[]],[\"m\",0,0,0,[]],[\"s\",[0,1]],[\"m\",0,0,0,[]],[\"l\",[]],[\"l\",[]],[\"c\",\"x\\ny\"]],\"version\":3}",
        Damage::Text,
    ),
    (
        b"{\"bits\":64,\"format\":\"ewig-pool\",\"history\":4294967295,\"roots\":[2,3,4,5],\"rows\":[[\"m\",0,0,0,[]],[\"m\",0,0,0,[]],[\"s\",[0,1]],[\"m\",0,0,0,[]],[\"l\",[]],[\"i\",1,[4]]],\"version\":3}",
        Damage::Vector,
    ),
    (
        b"{\"bits\":64,\"format\":\"ewig-pool\",\"history\":4294967295,\"roots\":[1,1,1,1],\"rows\":[[\"c\",\"a\"],[\"m\",1,16,0,[0]]],\"version\":3}",
        Damage::Trie,
    ),
    (
        b"{\"bits\":64,\"format\":\"ewig-pool\",\"history\":4294967295,\"roots\":[3,3,4,5],\"rows\":[[\"m\",0,0,0,[]],[\"m\",0,0,0,[]],[\"s\",[0,1]],[\"m\",0,0,0,[]],[\"l\",[]],[\"l\",[]]],\"version\":3}",
        Damage::Kind,
    ),
    (
        b"{\"bits\":64,\"format\":\"ewig-pool\",\"history\":4294967295,\"roots\":[2,3,4,5],\"rows\":[[\"m\",0,0,0,[]],[\"m\",0,0,0,[]],[\"s\",[0,1]],[\"m\",0,0,0,[]],[\"l\",[]],[\"l\",[]],[\"c\",\"z\"]],\"version\":3}",
        Damage::Order,
    ),
    (
        b"{\"bits\":64,\"format\":\"ewig-pool\",\"history\":4294967295,\"roots\":[2,3,5,4],\"rows\":[[\"m\",0,0,0,[]],[\"m\",0,0,0,[]],[\"s\",[0,1]],[\"m\",0,0,0,[]],[\"l\",[]],[\"l\",[]]],\"version\":3}",
        Damage::Order,
    ),
    (
        b"{\"bits\":64,\"format\":\"ewig-pool\",\"history\":4294967295,\"roots\":[2,3,4,5],\"rows\":[[\"m\",0,0,0,[]],[\"m\",0,0,0,[]],[\"s\",[0,1]],[\"m\",0,0,0,[]],[\"l\",[]],[\"q\",[]]],\"version\":3}",
        Damage::Row,
    ),
    // A row of 15 links before the last one of its parent, and a row of height 2 over leaves.
    (
        b"{\"bits\":64,\"format\":\"ewig-pool\",\"history\":4294967295,\"roots\":[2,3,6,7],\"rows\":[[\"m\",0,0,0,[]],[\"m\",0,0,0,[]],[\"s\",[0,1]],[\"m\",0,0,0,[]],[\"l\",[2,2,2,2,2,2,2,2,2,2,2,2,2,2,2]],[\"l\",[2]],[\"i\",1,[4,5]],[\"l\",[]]],\"version\":3}",
        Damage::Vector,
    ),
    (
        b"{\"bits\":64,\"format\":\"ewig-pool\",\"history\":4294967295,\"roots\":[2,3,6,7],\"rows\":[[\"m\",0,0,0,[]],[\"m\",0,0,0,[]],[\"s\",[0,1]],[\"m\",0,0,0,[]],[\"l\",[2,2,2,2,2,2,2,2,2,2,2,2,2,2,2,2]],[\"l\",[2]],[\"i\",2,[4,5]],[\"l\",[]]],\"version\":3}",
        Damage::Vector,
    ),
    // A pair whose key is a leaf, and tries with a link more than they have positions, and with one fewer.
    (
        b"{\"bits\":64,\"format\":\"ewig-pool\",\"history\":4294967295,\"roots\":[2,2,2,2],\"rows\":[[\"l\",[]],[\"p\",[0,0]],[\"m\",0,4096,0,[1]]],\"version\":3}",
        Damage::Trie,
    ),
    (
        b"{\"bits\":64,\"format\":\"ewig-pool\",\"history\":4294967295,\"roots\":[1,1,1,1],\"rows\":[[\"c\",\"a\"],[\"m\",0,4096,0,[0,0]]],\"version\":3}",
        Damage::Trie,
    ),
    (
        b"{\"bits\":64,\"format\":\"ewig-pool\",\"history\":4294967295,\"roots\":[1,1,1,1],\"rows\":[[\"c\",\"a\"],[\"m\",0,4128,0,[0]]],\"version\":3}",
        Damage::Trie,
    ),
    // A name with a space, a pair among lines, an undo whose root has one child, and one of more states than it keeps.
    (
        b"{\"bits\":64,\"format\":\"ewig-pool\",\"history\":4294967295,\"roots\":[5,6,7,8],\"rows\":[[\"c\",\"a b\"],[\"l\",[]],[\"p\",[0,1]],[\"m\",0,262144,0,[2]],[\"m\",0,0,0,[]],[\"s\",[3,4]],[\"m\",0,0,0,[]],[\"l\",[]],[\"l\",[]]],\"version\":3}",
        Damage::Kind,
    ),
    (
        b"{\"bits\":64,\"format\":\"ewig-pool\",\"history\":4294967295,\"roots\":[7,8,9,10],\"rows\":[[\"c\",\"a\"],[\"l\",[]],[\"p\",[0,1]],[\"l\",[2]],[\"p\",[0,3]],[\"m\",0,4096,0,[4]],[\"m\",0,0,0,[]],[\"s\",[5,6]],[\"m\",0,0,0,[]],[\"l\",[]],[\"l\",[]]],\"version\":3}",
        Damage::Kind,
    ),
    (
        b"{\"bits\":64,\"format\":\"ewig-pool\",\"history\":4294967295,\"roots\":[2,3,5,6],\"rows\":[[\"m\",0,0,0,[]],[\"m\",0,0,0,[]],[\"s\",[0,1]],[\"m\",0,0,0,[]],[\"l\",[2]],[\"i\",1,[4]],[\"l\",[]]],\"version\":3}",
        Damage::Kind,
    ),
    (
        b"{\"bits\":64,\"format\":\"ewig-pool\",\"history\":0,\"roots\":[2,3,4,5],\"rows\":[[\"m\",0,0,0,[]],[\"m\",0,0,0,[]],[\"s\",[0,1]],[\"m\",0,0,0,[]],[\"l\",[2]],[\"l\",[]]],\"version\":3}",
        Damage::Kind,
    ),
];

#[test]
fn tells_the_damage_of_others(rt: HostRuntime) {
    for (bytes, damage) in DAMAGED {
        let answer = checked_again(rt.alloc(), bytes, CODE_BITS);
        assert!(rt; answer.err() == Some(damage), "{damage:?}");
    }
}

// By five bits `A` and `a` have one code, and `A` is the smaller. So what fails is that the chain goes on in a trie row.
#[test]
fn tells_the_damage_of_a_chain_over_a_trie_row(rt: HostRuntime) {
    let bytes =
        b"{\"bits\":5,\"format\":\"ewig-pool\",\"history\":4294967295,\"roots\":[3,3,3,3],\"rows\":[[\"c\",\"A\"],[\"c\",\"a\"],[\"m\",0,4096,0,[1]],[\"k\",[0,2]]],\"version\":3}";
    assert!(rt; present_pool(rt.alloc(), bytes.as_slice(), 5).is_ok());
    let answer = checked_again(rt.alloc(), bytes.as_slice(), 5);
    assert!(rt; answer.err() == Some(Damage::Trie));
}

// How many owners the first two roots of a document have once it is loaded.
fn owners_of_roots(alloc: Global, bytes: &[u8]) -> Result<(usize, usize), Damage> {
    let mut heap: Heap<Text> = Heap::new(alloc);
    let roots = load(alloc, &mut heap, checked(alloc, bytes)?)?;
    Ok((heap.owners(roots[0]), heap.owners(roots[1])))
}

// A state that stands in undo too is one row, with two owners.
#[test]
fn loads_a_shared_state(rt: HostRuntime) -> Result<(), Fail> {
    let bytes =
        b"{\"bits\":64,\"format\":\"ewig-pool\",\"history\":4294967295,\"roots\":[2,3,4,5],\"rows\":[[\"m\",0,0,0,[]],[\"m\",0,0,0,[]],[\"s\",[0,1]],[\"m\",0,0,0,[]],[\"l\",[2]],[\"l\",[]]],\"version\":3}";
    let (first, second) = owners_of_roots(rt.alloc(), bytes.as_slice())?;
    assert!(rt; first == 2 && second == 1);
    Ok(())
}

// The laws hold of all loads: what is called here does nothing.
#[test]
fn laws_of_loads(_rt: HostRuntime) {
    loaded_rows_are_listed::<Text>();
    loaded_vectors_are_good::<Text>();
    loaded_tries_are_good::<Text>();
}

// Two buffers, `b` and `a`, over one leaf.
const SHARED: &[u8] =
    b"{\"bits\":64,\"format\":\"ewig-pool\",\"history\":4294967295,\"roots\":[8,9,10,11],\"rows\":[[\"c\",\"b\"],[\"c\",\"x\"],[\"l\",[1]],[\"p\",[0,2]],[\"c\",\"a\"],[\"p\",[4,2]],[\"m\",0,4128,0,[3,5]],[\"m\",0,0,0,[]],[\"s\",[6,7]],[\"m\",0,0,0,[]],[\"l\",[]],[\"l\",[]]],\"version\":3}";

// Places of its rows, and the text of the pool of these: none; both buffers, one of them twice, which share their leaf and reach no
// state; and its roots, the last first.
const GATHERED: [(&[u64], &[u8]); 3] = [
    (
        &[],
        b"{\"bits\":64,\"format\":\"ewig-pool\",\"history\":4294967295,\"roots\":[],\"rows\":[],\"version\":3}",
    ),
    (
        &[5, 3, 5],
        b"{\"bits\":64,\"format\":\"ewig-pool\",\"history\":4294967295,\"roots\":[3,5,3],\"rows\":[[\"c\",\"a\"],[\"c\",\"x\"],[\"l\",[1]],[\"p\",[0,2]],[\"c\",\"b\"],[\"p\",[4,2]]],\"version\":3}",
    ),
    (
        &[11, 10, 9, 8],
        b"{\"bits\":64,\"format\":\"ewig-pool\",\"history\":4294967295,\"roots\":[0,1,2,11],\"rows\":[[\"l\",[]],[\"l\",[]],[\"m\",0,0,0,[]],[\"c\",\"b\"],[\"c\",\"x\"],[\"l\",[4]],[\"p\",[3,5]],[\"c\",\"a\"],[\"p\",[7,5]],[\"m\",0,4128,0,[6,8]],[\"m\",0,0,0,[]],[\"s\",[9,10]]],\"version\":3}",
    ),
];

// These places, all of which are below the number.
fn places_below(rt: &impl Abort, alloc: Global, places: &[u64], count: u64) -> Vec<u64>
    ensures { All (λ place. place < count) result.items }
{
    let mut below = Vec::new(alloc);
    for place in places {
        assert!(rt; *place < count);
        below.push(*place).expect(rt, "memory");
    }
    below
}

// The document of the rows at these places of a checked one, and of what they reach.
fn gathered(rt: &impl Abort, alloc: Global, places: &[u64]) -> Result<Vec<u8>, Damage> {
    let shared = checked(alloc, SHARED)?;
    let rows = &shared.pool().rows;
    let roots = places_below(rt, alloc, places, rows.as_slice().len() as u64);
    let pool = pool_of_rows(alloc, rows, &roots, CODE_BITS, MOST_HISTORY)?;
    Ok(to_bytes(alloc, &pool)?)
}

#[test]
fn gathers_rows_of_a_list(rt: HostRuntime) -> Result<(), Fail> {
    for (places, bytes) in GATHERED {
        let text = gathered(&rt, rt.alloc(), places)?;
        assert!(rt; text.as_slice() == bytes);
    }
    Ok(())
}
