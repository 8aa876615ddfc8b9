//! Pools and their documents.
use elem_core::{Line, Text, text_of};
use node_heap::{Head, Heap};
use pool_order::order;
use pool_text::{
    Damage, Places, Pool, PoolText, Row, Rows, into_bytes, pool_from_bytes, pool_from_json,
    pool_of, text_length, to_bytes, to_json,
};
use std::alloc::Global;
use std::test::Fail;

// A leaf of one cell, twice among the roots.
#[test]
fn gathers_a_leaf_with_its_cell(rt: HostRuntime) -> Result<(), Fail> {
    let mut heap: Heap<Text> = Heap::new(rt.alloc());
    heap.reserve(1, 1)?;
    let cell = heap.cell(text_of(rt.alloc(), Line::new("x").ok_or("line")?)?);
    let leaf = heap.node(Head::Leaf, &[cell]);
    let roots = [leaf, leaf];
    let listed = order(rt.alloc(), &heap, &roots)?;
    let pool = pool_of(rt.alloc(), &heap, &listed, &roots, 5, 7)?;
    let bytes = to_bytes(rt.alloc(), &pool)?;
    let expected =
        b"{\"bits\":5,\"format\":\"ewig-pool\",\"history\":7,\"roots\":[1,1],\"rows\":[[\"c\",\"x\"],[\"l\",[0]]],\"version\":3}";
    assert_eq!(rt; bytes.as_slice(), expected.as_slice());
    Ok(())
}

// A pool with a row of each kind.
fn rows_of_each_kind(alloc: Global) -> Result<Pool, Fail> {
    let quotes = String::from_str(alloc, "a\"b\\c\td\u{1}\u{e9}")?;
    let mut rows = Vec::new(alloc);
    rows.push(Row::Cell(PoolText::from_text(quotes)))?;
    rows.push(Row::Leaf(Places::from_vec(Vec::new(alloc))))?;
    rows.push(Row::Inner(1, Places::from_vec(vec![in alloc; 1]?)))?;
    rows.push(Row::Trie {
        depth: 0,
        entries: 4096,
        nodes: 0,
        links: Places::from_vec(vec![in alloc; 0]?),
    })?;
    rows.push(Row::Chain(Places::from_vec(vec![in alloc; 0, 10]?)))?;
    rows.push(Row::Pair(0, 1))?;
    rows.push(Row::State(3, 18446744073709551615))?;
    Ok(Pool {
        bits: 64,
        version: 3,
        history: 4294967295,
        rows: Rows::from_vec(rows),
        roots: Places::from_vec(vec![in alloc; 6, 3, 2, 1]?),
    })
}

// Its document, and how long it is told to be.
fn written(alloc: Global) -> Result<(Vec<u8>, u64), Fail> {
    let pool = rows_of_each_kind(alloc)?;
    Ok((to_bytes(alloc, &pool)?, text_length(&pool)))
}

// The same as a value of JSON that is printed.
fn written_by_json(alloc: Global) -> Result<String, Fail> {
    let pool = rows_of_each_kind(alloc)?;
    let value = to_json(alloc, &pool)?;
    Ok(value.to_string(alloc)?)
}

// The document of the pool that is read from that value.
fn read_by_json(alloc: Global) -> Result<Vec<u8>, Fail> {
    let pool = rows_of_each_kind(alloc)?;
    let value = to_json(alloc, &pool)?;
    let read = pool_from_json(alloc, &value, 64)?;
    Ok(to_bytes(alloc, &read)?)
}

// The document of the pool that is read from these bytes.
fn read_again(alloc: Global, bytes: &[u8]) -> Result<Vec<u8>, Damage> {
    let pool = pool_from_bytes(alloc, bytes, 64)?;
    Ok(to_bytes(alloc, &pool)?)
}

// The same by the call that uses the pool up.
fn read_into(alloc: Global, bytes: &[u8]) -> Result<Vec<u8>, Damage> {
    let pool = pool_from_bytes(alloc, bytes, 64)?;
    Ok(into_bytes(alloc, pool)?)
}

#[test]
fn writes_and_reads_rows_of_each_kind(rt: HostRuntime) -> Result<(), Fail> {
    let expected =
        "{\"bits\":64,\"format\":\"ewig-pool\",\"history\":4294967295,\"roots\":[6,3,2,1],\"rows\":[[\"c\",\"a\\\"b\\\\c\\td\\u0001\u{e9}\"],[\"l\",[]],[\"i\",1,[1]],[\"m\",0,4096,0,[0]],[\"k\",[0,10]],[\"p\",[0,1]],[\"s\",[3,18446744073709551615]]],\"version\":3}";
    let (bytes, length) = written(rt.alloc())?;
    assert!(rt; bytes.as_slice() == expected.as_bytes() && length == bytes.len() as u64);
    assert!(rt; written_by_json(rt.alloc())?.as_str() == expected);
    assert!(rt; read_by_json(rt.alloc())?.as_slice() == expected.as_bytes());
    assert!(rt; read_again(rt.alloc(), expected.as_bytes())?.as_slice() == expected.as_bytes());
    assert!(rt; read_into(rt.alloc(), expected.as_bytes())?.as_slice() == expected.as_bytes());
    Ok(())
}

// The document of a new space, with white space and its keys in another order, as one of version 2 and as one of version 3.
const LOOSE: [&[u8]; 2] = [
    b" {\"version\" : 2,\n\"rows\":[[\"m\",0,0,0,[]], [\"m\",0,0,0,[ ]],[\"s\",[0,1]],[\"m\",0,0,0,[]],[\"l\",[]],[\"l\",[]]],\t\"roots\":[2,3,4,5],\"format\":\"ewig-pool\",\"bits\":64}\r\n",
    b"{\"history\" :4294967295,\n\"version\": 3 ,\"bits\":64,\"rows\":[[\"m\",0,0,0,[]],[\"m\",0,0,0,[]],[\"s\", [0,1]],[\"m\",0,0,0,[]],[\"l\",[]],[\"l\",[]]],\"format\":\"ewig-pool\",\"roots\":[2,3,4,5]}",
];

#[test]
fn reads_white_space_and_any_order_of_keys(rt: HostRuntime) -> Result<(), Fail> {
    let compact =
        b"{\"bits\":64,\"format\":\"ewig-pool\",\"history\":4294967295,\"roots\":[2,3,4,5],\"rows\":[[\"m\",0,0,0,[]],[\"m\",0,0,0,[]],[\"s\",[0,1]],[\"m\",0,0,0,[]],[\"l\",[]],[\"l\",[]]],\"version\":3}";
    for loose in LOOSE {
        let text = read_again(rt.alloc(), loose)?;
        assert!(rt; text.as_slice() == compact.as_slice());
    }
    Ok(())
}

// Each document fails the test beside it, if there is one, and those before it in the order of the tests not. The last ones are of
// version 1, whose tries are less deep and whose bits are at most 32, and of versions that aren't read.
const DOCUMENTS: [(&[u8], Option<Damage>); 27] = [
    (b"{\"bits\":64", Some(Damage::Json)),
    (b"[\"\xff\"]", Some(Damage::Json)),
    (
        b"{\"bits\":64,\"format\":\"ewig-pool\",\"history\":4294967295,\"roots\":[2,3,4],\"rows\":[],\"version\":3}",
        Some(Damage::Form),
    ),
    (
        b"{\"bits\":64,\"format\":\"ewig-pool\",\"history\":1,\"more\":0,\"roots\":[2,3,4,5],\"rows\":[],\"version\":3}",
        Some(Damage::Form),
    ),
    (
        b"{\"bits\":64,\"format\":\"ewig-pod\",\"history\":1,\"roots\":[2,3,4,5],\"rows\":[],\"version\":3}",
        Some(Damage::Form),
    ),
    (
        b"{\"bits\":-1,\"format\":\"ewig-pool\",\"history\":4294967295,\"roots\":[2,3,4,5],\"rows\":[],\"version\":3}",
        Some(Damage::Form),
    ),
    (
        b"{\"bits\":64,\"format\":\"ewig-pool\",\"roots\":[2,3,4,5],\"rows\":[],\"version\":3}",
        Some(Damage::Form),
    ),
    (
        b"{\"bits\":64,\"format\":\"ewig-pool\",\"history\":4294967296,\"roots\":[2,3,4,5],\"rows\":[],\"version\":3}",
        Some(Damage::Form),
    ),
    (
        b"{\"bits\":64,\"format\":\"ewig-pool\",\"history\":1,\"roots\":[2,3,4,5],\"rows\":[],\"version\":2}",
        Some(Damage::Form),
    ),
    (
        b"{\"bits\":64,\"format\":\"ewig-pool\",\"history\":0,\"roots\":[2,3,4,5],\"rows\":[],\"version\":3}",
        None,
    ),
    (
        b"{\"bits\":64,\"format\":\"ewig-pool\",\"roots\":[2,3,4,5],\"rows\":[],\"version\":2}",
        None,
    ),
    (
        b"{\"bits\":31,\"format\":\"ewig-pool\",\"roots\":[2,3,4,5],\"rows\":[[\"q\",[]]],\"version\":9}",
        Some(Damage::Version),
    ),
    (
        b"{\"bits\":31,\"format\":\"ewig-pool\",\"history\":4294967295,\"roots\":[2,3,4,5],\"rows\":[[\"q\",[]]],\"version\":3}",
        Some(Damage::Bits),
    ),
    (
        b"{\"bits\":64,\"format\":\"ewig-pool\",\"history\":4294967295,\"roots\":[2,3,4,5],\"rows\":[[\"l\",[]],[\"q\",[]]],\"version\":3}",
        Some(Damage::Row),
    ),
    (
        b"{\"bits\":64,\"format\":\"ewig-pool\",\"history\":4294967295,\"roots\":[2,3,4,5],\"rows\":[[\"i\",8,[0]]],\"version\":3}",
        Some(Damage::Row),
    ),
    (
        b"{\"bits\":64,\"format\":\"ewig-pool\",\"history\":4294967295,\"roots\":[2,3,4,5],\"rows\":[[\"m\",0,4294967296,0,[0]]],\"version\":3}",
        Some(Damage::Row),
    ),
    (
        b"{\"bits\":64,\"format\":\"ewig-pool\",\"history\":4294967295,\"roots\":[2,3,4,5],\"rows\":[[\"k\",[0,1,2]]],\"version\":3}",
        Some(Damage::Row),
    ),
    (
        b"{\"bits\":64,\"format\":\"ewig-pool\",\"history\":4294967295,\"roots\":[2,3,4,5],\"rows\":[[\"p\",[0]]],\"version\":3}",
        Some(Damage::Row),
    ),
    (
        b"{\"bits\":64,\"format\":\"ewig-pool\",\"history\":4294967295,\"roots\":[0,0,0,0],\"rows\":[[\"l\",[0]]],\"version\":3}",
        None,
    ),
    (
        b"{\"bits\":64,\"format\":\"ewig-pool\",\"history\":4294967295,\"roots\":[0,0,0,0],\"rows\":[[\"m\",12,0,0,[]]],\"version\":3}",
        None,
    ),
    (
        b"{\"bits\":64,\"format\":\"ewig-pool\",\"history\":4294967295,\"roots\":[0,0,0,0],\"rows\":[[\"m\",13,0,0,[]]],\"version\":3}",
        Some(Damage::Row),
    ),
    (
        b"{\"bits\":32,\"format\":\"ewig-pool\",\"history\":4294967295,\"roots\":[0,0,0,0],\"rows\":[[\"m\",6,0,0,[]]],\"version\":3}",
        Some(Damage::Bits),
    ),
    (
        b"{\"bits\":32,\"format\":\"ewig-pool\",\"roots\":[0,0,0,0],\"rows\":[[\"m\",6,0,0,[]]],\"version\":1}",
        None,
    ),
    (
        b"{\"bits\":32,\"format\":\"ewig-pool\",\"roots\":[0,0,0,0],\"rows\":[[\"m\",7,0,0,[]]],\"version\":1}",
        Some(Damage::Row),
    ),
    (
        b"{\"bits\":31,\"format\":\"ewig-pool\",\"roots\":[0,0,0,0],\"rows\":[[\"m\",6,0,0,[]]],\"version\":1}",
        Some(Damage::Bits),
    ),
    (
        b"{\"bits\":64,\"format\":\"ewig-pool\",\"roots\":[0,0,0,0],\"rows\":[[\"m\",6,0,0,[]]],\"version\":1}",
        Some(Damage::Bits),
    ),
    (
        b"{\"bits\":64,\"format\":\"ewig-pool\",\"roots\":[0,0,0,0],\"rows\":[[\"l\",[0]]],\"version\":4}",
        Some(Damage::Version),
    ),
];

#[test]
fn finds_the_first_damage(rt: HostRuntime) {
    for (bytes, damage) in DOCUMENTS {
        let answer = pool_from_bytes(rt.alloc(), bytes, 64);
        assert!(rt; answer.err() == damage, "{damage:?}");
    }
}
