//! Chains of documents, and what a pool has more than one.
ghost use Rattle.std.specs.Prelude.{◌≡◌, IfOk};

use crate::documents::present_pool;
use elem_core::Text;
use pool_check::{Checked, check};
use pool_delta::{Chain, chain_more, chain_pool, chain_start, delta_bytes};
use pool_text::{Damage, to_bytes};
use std::alloc::Global;
use std::test::Fail;

// The start space, and one with a buffer of two equal lines.
const START: &[u8] =
    b"{\"bits\":64,\"format\":\"ewig-pool\",\"history\":4294967295,\"roots\":[2,3,4,5],\"rows\":[[\"m\",0,0,0,[]],[\"m\",0,0,0,[]],[\"s\",[0,1]],[\"m\",0,0,0,[]],[\"l\",[]],[\"l\",[]]],\"version\":3}";

const TWO_CELLS: &[u8] =
    b"{\"bits\":64,\"format\":\"ewig-pool\",\"history\":4294967295,\"roots\":[7,8,9,10],\"rows\":[[\"c\",\"a\"],[\"c\",\"x\"],[\"c\",\"x\"],[\"l\",[1,2]],[\"p\",[0,3]],[\"m\",0,4096,0,[4]],[\"m\",0,0,0,[]],[\"s\",[5,6]],[\"m\",0,0,0,[]],[\"l\",[]],[\"l\",[]]],\"version\":3}";

// What the second has more than the first, and than itself.
const MORE: &[u8] =
    b"{\"after\":6,\"bits\":64,\"format\":\"ewig-part\",\"history\":4294967295,\"roots\":[12,1,4,5],\"rows\":[[\"c\",\"a\"],[\"c\",\"x\"],[\"c\",\"x\"],[\"l\",[7,8]],[\"p\",[6,9]],[\"m\",0,4096,0,[10]],[\"s\",[11,0]]],\"version\":3}";

const AGAIN: &[u8] =
    b"{\"after\":11,\"bits\":64,\"format\":\"ewig-part\",\"history\":4294967295,\"roots\":[7,8,9,10],\"rows\":[],\"version\":3}";

// The pool of a document, checked.
fn checked(alloc: Global, bytes: &[u8]) -> Result<Checked<Text>, Damage>
    ensures { IfOk result (λ checked. checked.bits ≡ 64) }
{
    check::<Text>(alloc, present_pool(alloc, bytes, 64)?)
}

// The text of what the pool of the last document has more than the chain of the first.
fn more_bytes(alloc: Global, first: &[u8], last: &[u8]) -> Result<Vec<u8>, Damage> {
    let chain = chain_start(alloc, first, 64)?;
    let last = checked(alloc, last)?;
    Ok(delta_bytes(alloc, &chain, last.pool())?)
}

// The text of the pool of a chain of two.
fn chain_bytes(alloc: Global, first: &[u8], more: &[u8]) -> Result<Vec<u8>, Damage> {
    let chain = chain_more(alloc, chain_start(alloc, first, 64)?, more)?;
    Ok(to_bytes(alloc, &chain_pool(alloc, chain)?)?)
}

#[test]
fn writes_what_a_pool_has_more(rt: HostRuntime) -> Result<(), Fail> {
    for (first, last, more) in [(START, TWO_CELLS, MORE), (TWO_CELLS, TWO_CELLS, AGAIN)] {
        assert_eq!(rt; more_bytes(rt.alloc(), first, last)?.as_slice(), more);
    }
    Ok(())
}

#[test]
fn chains_stand_for_their_last_pool(rt: HostRuntime) -> Result<(), Fail> {
    for (first, last) in [
        (START, TWO_CELLS),
        (TWO_CELLS, TWO_CELLS),
        (TWO_CELLS, START),
    ] {
        let more = more_bytes(rt.alloc(), first, last)?;
        assert_eq!(rt;
            chain_bytes(rt.alloc(), first, more.as_slice())?.as_slice(),
            last
        );
    }
    Ok(())
}

// Each fails the test beside it after the start space.
const DAMAGED: [(&[u8], Damage); 3] = [
    (
        b"{\"after\":6,\"bits\":64,\"format\":\"ewig-part\",\"history\":4294967295,\"roots\":[2,3,4,5],\"rows\":[],\"version\":2}",
        Damage::Version,
    ),
    (
        b"{\"after\":5,\"bits\":64,\"format\":\"ewig-part\",\"history\":4294967295,\"roots\":[12,1,4,5],\"rows\":[[\"c\",\"a\"],[\"c\",\"x\"],[\"c\",\"x\"],[\"l\",[7,8]],[\"p\",[6,9]],[\"m\",0,4096,0,[10]],[\"s\",[11,0]]],\"version\":3}",
        Damage::Link,
    ),
    (
        b"{\"after\":6,\"bits\":64,\"format\":\"ewig-part\",\"history\":4294967295,\"roots\":[2,3,4,5],\"rows\":[[\"l\",[6]]],\"version\":3}",
        Damage::Link,
    ),
];

#[test]
fn refuses_damaged_parts(rt: HostRuntime) -> Result<(), Fail> {
    for (more, damage) in DAMAGED {
        let chain: Chain = chain_start(rt.alloc(), START, 64)?;
        assert_eq!(rt; chain_more(rt.alloc(), chain, more).err(), Some(damage));
    }
    Ok(())
}
