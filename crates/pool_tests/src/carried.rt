//! Documents of version 1 that are checked and carried over to today's rules.
ghost use Rattle.std.specs.Prelude.{◌≤◌};
ghost use Rattle.elem_core.specs.declared.codes.TheConstants.{CODE_BITS};

use crate::documents::{checked_again, old_pool};
use elem_core::{CODE_BITS, Text};
use pool_carry::carry;
use pool_check::{Old, check_old};
use pool_text::{Damage, to_bytes};
use std::alloc::Global;
use std::test::Fail;

// A document of a space of so many bits, and the document that it is carried to: the start space, two equal cells, two names in a
// sub-node, two names in a chain, three of which two are in one, a star with the name of a buffer in no bits, and states over tries
// that are equal and apart and over one that they share.
const CARRIED: [(u32, &[u8], &[u8]); 7] = [
    (
        64,
        b"{\"bits\":32,\"format\":\"ewig-pool\",\"roots\":[2,3,4,5],\"rows\":[[\"m\",0,0,0,[]],[\"m\",0,0,0,[]],[\"s\",[0,1]],[\"m\",0,0,0,[]],[\"l\",[]],[\"l\",[]]],\"version\":1}",
        b"{\"bits\":64,\"format\":\"ewig-pool\",\"history\":4294967295,\"roots\":[1,0,2,3],\"rows\":[[\"m\",0,0,0,[]],[\"s\",[0,0]],[\"l\",[]],[\"l\",[]]],\"version\":3}",
    ),
    (
        64,
        b"{\"bits\":32,\"format\":\"ewig-pool\",\"roots\":[7,8,9,10],\"rows\":[[\"c\",\"a\"],[\"c\",\"x\"],[\"c\",\"x\"],[\"l\",[1,2]],[\"p\",[0,3]],[\"m\",0,4096,0,[4]],[\"m\",0,0,0,[]],[\"s\",[5,6]],[\"m\",0,0,0,[]],[\"l\",[]],[\"l\",[]]],\"version\":1}",
        b"{\"bits\":64,\"format\":\"ewig-pool\",\"history\":4294967295,\"roots\":[7,6,8,9],\"rows\":[[\"c\",\"a\"],[\"c\",\"x\"],[\"c\",\"x\"],[\"l\",[1,2]],[\"p\",[0,3]],[\"m\",0,4096,0,[4]],[\"m\",0,0,0,[]],[\"s\",[5,6]],[\"l\",[]],[\"l\",[]]],\"version\":3}",
    ),
    (
        64,
        b"{\"bits\":32,\"format\":\"ewig-pool\",\"roots\":[9,10,11,12],\"rows\":[[\"c\",\"a\"],[\"l\",[]],[\"p\",[0,1]],[\"c\",\"A\"],[\"l\",[]],[\"p\",[3,4]],[\"m\",1,4194816,0,[2,5]],[\"m\",0,0,4096,[6]],[\"m\",0,0,0,[]],[\"s\",[7,8]],[\"m\",0,0,0,[]],[\"l\",[]],[\"l\",[]]],\"version\":1}",
        b"{\"bits\":64,\"format\":\"ewig-pool\",\"history\":4294967295,\"roots\":[9,8,10,11],\"rows\":[[\"c\",\"a\"],[\"l\",[]],[\"p\",[0,1]],[\"c\",\"A\"],[\"l\",[]],[\"p\",[3,4]],[\"m\",1,8388624,0,[2,5]],[\"m\",0,0,4096,[6]],[\"m\",0,0,0,[]],[\"s\",[7,8]],[\"l\",[]],[\"l\",[]]],\"version\":3}",
    ),
    (
        5,
        b"{\"bits\":5,\"format\":\"ewig-pool\",\"roots\":[16,17,18,19],\"rows\":[[\"c\",\"A\"],[\"l\",[]],[\"p\",[0,1]],[\"c\",\"a\"],[\"l\",[]],[\"p\",[3,4]],[\"k\",[5]],[\"k\",[2,6]],[\"m\",6,0,1,[7]],[\"m\",5,0,1,[8]],[\"m\",4,0,1,[9]],[\"m\",3,0,1,[10]],[\"m\",2,0,1,[11]],[\"m\",1,0,1,[12]],[\"m\",0,0,4096,[13]],[\"m\",0,0,0,[]],[\"s\",[14,15]],[\"m\",0,0,0,[]],[\"l\",[]],[\"l\",[]]],\"version\":1}",
        b"{\"bits\":5,\"format\":\"ewig-pool\",\"history\":4294967295,\"roots\":[22,21,23,24],\"rows\":[[\"c\",\"A\"],[\"l\",[]],[\"p\",[0,1]],[\"c\",\"a\"],[\"l\",[]],[\"p\",[3,4]],[\"k\",[5]],[\"k\",[2,6]],[\"m\",12,0,1,[7]],[\"m\",11,0,1,[8]],[\"m\",10,0,1,[9]],[\"m\",9,0,1,[10]],[\"m\",8,0,1,[11]],[\"m\",7,0,1,[12]],[\"m\",6,0,1,[13]],[\"m\",5,0,1,[14]],[\"m\",4,0,1,[15]],[\"m\",3,0,1,[16]],[\"m\",2,0,1,[17]],[\"m\",1,0,1,[18]],[\"m\",0,0,4096,[19]],[\"m\",0,0,0,[]],[\"s\",[20,21]],[\"l\",[]],[\"l\",[]]],\"version\":3}",
    ),
    (
        7,
        b"{\"bits\":7,\"format\":\"ewig-pool\",\"roots\":[19,20,21,22],\"rows\":[[\"c\",\"a\"],[\"l\",[]],[\"p\",[0,1]],[\"c\",\"A\"],[\"l\",[]],[\"p\",[3,4]],[\"c\",\"ba\"],[\"l\",[]],[\"p\",[6,7]],[\"k\",[8]],[\"k\",[5,9]],[\"m\",6,0,1,[10]],[\"m\",5,0,1,[11]],[\"m\",4,0,1,[12]],[\"m\",3,0,1,[13]],[\"m\",2,0,1,[14]],[\"m\",1,2,4,[2,15]],[\"m\",0,0,4096,[16]],[\"m\",0,0,0,[]],[\"s\",[17,18]],[\"m\",0,0,0,[]],[\"l\",[]],[\"l\",[]]],\"version\":1}",
        b"{\"bits\":7,\"format\":\"ewig-pool\",\"history\":4294967295,\"roots\":[25,24,26,27],\"rows\":[[\"c\",\"A\"],[\"l\",[]],[\"p\",[0,1]],[\"c\",\"a\"],[\"l\",[]],[\"p\",[3,4]],[\"c\",\"ba\"],[\"l\",[]],[\"p\",[6,7]],[\"k\",[8]],[\"k\",[5,9]],[\"m\",12,0,1,[10]],[\"m\",11,0,1,[11]],[\"m\",10,0,1,[12]],[\"m\",9,0,1,[13]],[\"m\",8,0,1,[14]],[\"m\",7,0,1,[15]],[\"m\",6,0,1,[16]],[\"m\",5,0,1,[17]],[\"m\",4,0,1,[18]],[\"m\",3,0,1,[19]],[\"m\",2,0,1,[20]],[\"m\",1,8,1,[2,21]],[\"m\",0,0,4096,[22]],[\"m\",0,0,0,[]],[\"s\",[23,24]],[\"l\",[]],[\"l\",[]]],\"version\":3}",
    ),
    (
        0,
        b"{\"bits\":0,\"format\":\"ewig-pool\",\"roots\":[17,18,19,20],\"rows\":[[\"c\",\"a\"],[\"l\",[]],[\"p\",[0,1]],[\"c\",\"b\"],[\"l\",[]],[\"p\",[3,4]],[\"k\",[5]],[\"k\",[2,6]],[\"m\",6,0,1,[7]],[\"m\",5,0,1,[8]],[\"m\",4,0,1,[9]],[\"m\",3,0,1,[10]],[\"m\",2,0,1,[11]],[\"m\",1,0,1,[12]],[\"m\",0,0,1,[13]],[\"c\",\"a\"],[\"m\",0,1,0,[15]],[\"s\",[14,16]],[\"m\",0,0,0,[]],[\"l\",[]],[\"l\",[]]],\"version\":1}",
        b"{\"bits\":0,\"format\":\"ewig-pool\",\"history\":4294967295,\"roots\":[23,24,25,26],\"rows\":[[\"c\",\"a\"],[\"l\",[]],[\"p\",[0,1]],[\"c\",\"b\"],[\"l\",[]],[\"p\",[3,4]],[\"k\",[5]],[\"k\",[2,6]],[\"m\",12,0,1,[7]],[\"m\",11,0,1,[8]],[\"m\",10,0,1,[9]],[\"m\",9,0,1,[10]],[\"m\",8,0,1,[11]],[\"m\",7,0,1,[12]],[\"m\",6,0,1,[13]],[\"m\",5,0,1,[14]],[\"m\",4,0,1,[15]],[\"m\",3,0,1,[16]],[\"m\",2,0,1,[17]],[\"m\",1,0,1,[18]],[\"m\",0,0,1,[19]],[\"c\",\"a\"],[\"m\",0,1,0,[21]],[\"s\",[20,22]],[\"m\",0,0,0,[]],[\"l\",[]],[\"l\",[]]],\"version\":3}",
    ),
    (
        64,
        b"{\"bits\":32,\"format\":\"ewig-pool\",\"roots\":[9,10,20,21],\"rows\":[[\"c\",\"a\"],[\"l\",[]],[\"p\",[0,1]],[\"c\",\"A\"],[\"l\",[]],[\"p\",[3,4]],[\"m\",1,4194816,0,[2,5]],[\"m\",0,0,4096,[6]],[\"m\",0,0,0,[]],[\"s\",[7,8]],[\"m\",0,0,0,[]],[\"m\",1,4194816,0,[2,5]],[\"m\",0,0,4096,[11]],[\"m\",0,0,0,[]],[\"s\",[12,13]],[\"m\",0,4096,0,[2]],[\"m\",0,0,0,[]],[\"s\",[15,16]],[\"m\",0,0,0,[]],[\"s\",[15,18]],[\"l\",[14,17,19]],[\"l\",[]]],\"version\":1}",
        b"{\"bits\":64,\"format\":\"ewig-pool\",\"history\":4294967295,\"roots\":[9,8,14,15],\"rows\":[[\"c\",\"a\"],[\"l\",[]],[\"p\",[0,1]],[\"c\",\"A\"],[\"l\",[]],[\"p\",[3,4]],[\"m\",1,8388624,0,[2,5]],[\"m\",0,0,4096,[6]],[\"m\",0,0,0,[]],[\"s\",[7,8]],[\"s\",[7,8]],[\"m\",0,4096,0,[2]],[\"s\",[11,8]],[\"s\",[11,8]],[\"l\",[10,12,13]],[\"l\",[]]],\"version\":3}",
    ),
];

// The pool that the bytes of a document of version 1 have, checked for a space of so many bits, or what is wrong with them.
fn checked_old(alloc: Global, bytes: &[u8], bits: u32) -> Result<Old, Damage>
    requires { bits ≤ CODE_BITS }
{
    check_old::<Text>(alloc, old_pool(alloc, bytes, bits)?)
}

// The document that such a pool is carried to.
fn carried(alloc: Global, bytes: &[u8], bits: u32) -> Result<Vec<u8>, Damage>
    requires { bits ≤ CODE_BITS }
{
    let pool = carry(alloc, checked_old(alloc, bytes, bits)?, bits)?;
    Ok(to_bytes(alloc, &pool)?)
}

// What they are carried to is read and passes the tests of today, and is written as it is.
#[test]
fn carries_documents(rt: HostRuntime) -> Result<(), Fail> {
    for (bits, bytes, new) in CARRIED {
        assert!(rt; bits <= CODE_BITS);
        let text = carried(rt.alloc(), bytes, bits)?;
        assert!(rt; text.as_slice() == new, "by {bits}");
        let again = checked_again(rt.alloc(), new, bits)?;
        assert!(rt; again.as_slice() == new, "by {bits}");
    }
    Ok(())
}

// A document of version 1, and what its pool is written as: a document of today's version with the same bits and rows, and the
// greatest bound of undo.
const OLD: &[u8] =
    b"{\"bits\":7,\"format\":\"ewig-pool\",\"roots\":[1,0,2,2],\"rows\":[[\"m\",0,0,0,[]],[\"s\",[0,0]],[\"l\",[]]],\"version\":1}";

const WRITTEN: &[u8] =
    b"{\"bits\":7,\"format\":\"ewig-pool\",\"history\":4294967295,\"roots\":[1,0,2,2],\"rows\":[[\"m\",0,0,0,[]],[\"s\",[0,0]],[\"l\",[]]],\"version\":3}";

// The documents of such a pool of seven bits where it is lent, and where it is given back.
fn lent_and_given(alloc: Global, bytes: &[u8]) -> Result<(Vec<u8>, Vec<u8>), Damage> {
    let old = checked_old(alloc, bytes, 7)?;
    let lent = to_bytes(alloc, old.pool())?;
    let given = to_bytes(alloc, &old.into_pool())?;
    Ok((lent, given))
}

// A pool is lent and given back as it was.
#[test]
fn lends_an_old_pool(rt: HostRuntime) -> Result<(), Fail> {
    let (lent, given) = lent_and_given(rt.alloc(), OLD)?;
    assert!(rt; lent.as_slice() == WRITTEN);
    assert!(rt; given.as_slice() == WRITTEN);
    Ok(())
}

// Documents of version 1, each of which fails the test beside it, and those before it in the order of the tests not. The sub-nodes
// have one entry, or two where the codes of today put them.
const DAMAGED: [(&[u8], Damage); 5] = [
    (
        b"{\"bits\":32,\"format\":\"ewig-pool\",\"roots\":[0,0,0,0],\"rows\":[[\"l\",[0]]],\"version\":1}",
        Damage::Link,
    ),
    (
        b"{\"bits\":32,\"format\":\"ewig-pool\",\"roots\":[1,1,1,1],\"rows\":[[\"c\",\"a\"],[\"m\",1,512,0,[0]]],\"version\":1}",
        Damage::Trie,
    ),
    (
        b"{\"bits\":32,\"format\":\"ewig-pool\",\"roots\":[3,3,3,3],\"rows\":[[\"c\",\"a\"],[\"c\",\"A\"],[\"m\",1,8388624,0,[0,1]],[\"m\",0,0,4096,[2]]],\"version\":1}",
        Damage::Trie,
    ),
    (
        b"{\"bits\":32,\"format\":\"ewig-pool\",\"roots\":[3,3,4,5],\"rows\":[[\"m\",0,0,0,[]],[\"m\",0,0,0,[]],[\"s\",[0,1]],[\"m\",0,0,0,[]],[\"l\",[]],[\"l\",[]]],\"version\":1}",
        Damage::Kind,
    ),
    (
        b"{\"bits\":32,\"format\":\"ewig-pool\",\"roots\":[2,3,5,4],\"rows\":[[\"m\",0,0,0,[]],[\"m\",0,0,0,[]],[\"s\",[0,1]],[\"m\",0,0,0,[]],[\"l\",[]],[\"l\",[]]],\"version\":1}",
        Damage::Order,
    ),
];

#[test]
fn tells_the_damage_of_old_documents(rt: HostRuntime) {
    for (bytes, damage) in DAMAGED {
        let answer = checked_old(rt.alloc(), bytes, CODE_BITS);
        assert!(rt; answer.err() == Some(damage), "{damage:?}");
    }
}
