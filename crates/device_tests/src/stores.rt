//! Stores: one over memory, and one over real files.

use crate::failing::{ELSEWHERE, Failing, Fails};
use shell_io::{DirStore, FetchFault, KeepFault, MemStore, Store};
use std::fs;
use std::fs::Permissions;
use std::os::unix::fs::{MetadataExt, PermissionsExt, symlink};
use std::process::Abort;
use std::rt::Files;
use std::test::Fail;

// Keeps files of one name and asks for each, with so many bytes allowed.
fn keeps_and_gives<D: Store>(
    rt: &(impl Abort + AllocGlobal),
    store: &mut D,
    name: &str,
) -> Result<(), Fail> {
    let table = [
        (b"one\n".as_slice(), 4, Ok(())),
        (b"longer\n".as_slice(), 6, Err(FetchFault::Large)),
        (b"longer\n".as_slice(), 7, Ok(())),
        (b"\n".as_slice(), 100, Ok(())),
        (b"".as_slice(), 0, Ok(())),
    ];
    let mut file = Vec::new(rt.alloc());
    assert_eq!(rt; store.fetch(name, 100, &mut file), Err(FetchFault::Missing));
    for (bytes, limit, want) in table {
        assert_eq!(rt; store.keep(name, bytes), Ok(()));
        file.clear();
        assert_eq!(rt; store.fetch(name, limit, &mut file), want);
        if want.is_ok() {
            assert_eq!(rt; file.as_slice(), bytes);
        }
    }
    Ok(())
}

#[test]
fn keeps_files_in_memory(rt: HostRuntime) -> Result<(), Fail> {
    let alloc = rt.alloc();
    let mut store = MemStore::new(alloc, Vec::new(alloc), Vec::new(alloc));
    assert!(rt; store.file("notes").is_none());
    keeps_and_gives(&rt, &mut store, "notes")?;
    keeps_and_gives(&rt, &mut store, "others")?;
    assert_eq!(rt; store.file("notes"), Some(b"".as_slice()));
    Ok(())
}

#[test]
fn keeps_files_of_the_folder(rt: HostRuntime) -> Result<(), Fail> {
    let mut store = DirStore::new(&rt);
    // What an earlier run may have left.
    let _ = fs::remove_file(&rt, "kept-by-a-test");
    let _ = fs::remove_file(&rt, ".kept-by-a-test.0");
    keeps_and_gives(&rt, &mut store, "kept-by-a-test")?;
    // A call was cut off, and left its file.
    fs::write(&rt, ".kept-by-a-test.0", b"half")?;
    assert_eq!(rt; store.keep("kept-by-a-test", b"whole"), Ok(()));
    let left = fs::read(&rt, ".kept-by-a-test.0")?;
    assert_eq!(rt; left.as_slice(), b"half".as_slice());
    fs::remove_file(&rt, ".kept-by-a-test.0")?;
    let kept = fs::read(&rt, "kept-by-a-test")?;
    assert_eq!(rt; kept.as_slice(), b"whole".as_slice());
    fs::remove_file(&rt, "kept-by-a-test")?;
    Ok(())
}

#[test]
fn refuses_what_is_no_plain_file(rt: HostRuntime) -> Result<(), Fail> {
    let mut store = DirStore::new(&rt);
    // What an earlier run may have left.
    let _ = fs::remove_dir(&rt, "folder-of-a-test");
    let _ = fs::remove_file(&rt, "link-of-a-test");
    fs::create_dir(&rt, "folder-of-a-test")?;
    fs::write(&rt, "file-of-a-test", b"old")?;
    symlink(&rt, "file-of-a-test", "link-of-a-test")?;
    for name in ["folder-of-a-test", "link-of-a-test", "../link-of-a-test"] {
        let mut file = Vec::new(rt.alloc());
        assert_eq!(rt; store.fetch(name, 100, &mut file), Err(FetchFault::Failed));
        assert_eq!(rt; store.keep(name, b"new"), Err(KeepFault::Failed));
    }
    let linked = fs::read(&rt, "file-of-a-test")?;
    assert_eq!(rt; linked.as_slice(), b"old".as_slice());
    fs::remove_file(&rt, "link-of-a-test")?;
    fs::remove_file(&rt, "file-of-a-test")?;
    fs::remove_dir(&rt, "folder-of-a-test")?;
    Ok(())
}

// Asks for an old file and keeps a new one in its place, while one kind of call of the system fails.
fn keeps_or_leaves(
    rt: &(impl Abort + AllocGlobal + Files),
    fails: Fails,
    fetches: bool,
    keeps: bool,
) -> Result<(), Fail> {
    let system = Failing { system: rt, fails };
    let mut store = DirStore::new((system, rt.alloc()));
    let mut file = Vec::new(rt.alloc());
    let fetched = store.fetch("old-of-a-test", 100, &mut file);
    let fetch_fault = if fetches {
        Ok(())
    } else {
        Err(FetchFault::Failed)
    };
    assert_eq!(rt; fetched, fetch_fault, "at {fails:?}");
    if fetches {
        assert_eq!(rt; file.as_slice(), b"the old file".as_slice(), "at {fails:?}");
    }
    let kept = store.keep("old-of-a-test", b"the new file");
    let keep_fault = if keeps {
        Ok(())
    } else {
        Err(KeepFault::Failed)
    };
    assert_eq!(rt; kept, keep_fault, "at {fails:?}");
    let file = fs::read(rt, "old-of-a-test")?;
    let want = if keeps {
        b"the new file".as_slice()
    } else {
        b"the old file".as_slice()
    };
    assert_eq!(rt; file.as_slice(), want, "at {fails:?}");
    assert!(rt; !fs::exists(rt, ".old-of-a-test.0")?, "at {fails:?}");
    Ok(())
}

// The call of the system that fails, and whether a fetch and a keep succeed then.
const FAULTS: [(Fails, bool, bool); 7] = [
    (Fails::Look, false, false),
    (Fails::Open, false, false),
    (Fails::Read(1), false, true),
    (Fails::Interrupt(1), true, true),
    (Fails::Write(1), true, false),
    (Fails::Sync, true, false),
    (Fails::Rename, true, false),
];

#[test]
fn leaves_the_old_file_after_a_fault(rt: HostRuntime) -> Result<(), Fail> {
    for (fails, fetches, keeps) in FAULTS {
        fs::write(&rt, "old-of-a-test", b"the old file")?;
        keeps_or_leaves(&rt, fails, fetches, keeps)?;
    }
    fs::remove_file(&rt, "old-of-a-test")?;
    Ok(())
}

#[test]
fn refuses_a_link_put_in_between(rt: HostRuntime) -> Result<(), Fail> {
    // What an earlier run may have left.
    let _ = fs::remove_file(&rt, "looked-at-by-a-test");
    fs::write(&rt, "looked-at-by-a-test", b"old")?;
    fs::write(&rt, ELSEWHERE, b"no file of the store")?;
    let system = Failing {
        system: &rt,
        fails: Fails::Link,
    };
    let mut store = DirStore::new((system, rt.alloc()));
    let mut file = Vec::new(rt.alloc());
    let fetched = store.fetch("looked-at-by-a-test", 100, &mut file);
    assert_eq!(rt; fetched, Err(FetchFault::Failed));
    assert_eq!(rt; file.as_slice(), b"".as_slice());
    // The link was there, and led to that file.
    let linked = fs::read(&rt, "looked-at-by-a-test")?;
    assert_eq!(rt; linked.as_slice(), b"no file of the store".as_slice());
    fs::remove_file(&rt, "looked-at-by-a-test")?;
    fs::remove_file(&rt, ELSEWHERE)?;
    Ok(())
}

// Keeps over a file of these permissions: whether it does, and what is there then. The new file has the permissions of the old one.
fn keeps_over(
    rt: &(impl Abort + AllocGlobal + Files),
    mode: u32,
    want: Result<(), KeepFault>,
    there: &[u8],
) -> Result<(), Fail> {
    let name = "file-with-rights-of-a-test";
    let _ = fs::remove_file(rt, name);
    fs::write(rt, name, b"old")?;
    fs::set_permissions(rt, name, Permissions::from_mode(mode))?;
    let mut store = DirStore::new(rt);
    assert_eq!(rt; store.keep(name, b"new"), want, "of {mode}");
    let file = fs::read(rt, name)?;
    assert_eq!(rt; file.as_slice(), there, "of {mode}");
    assert_eq!(rt; fs::metadata(rt, name)?.mode() & 0o777, mode);
    assert!(rt;
        !fs::exists(rt, ".file-with-rights-of-a-test.0")?,
        "of {mode}"
    );
    fs::remove_file(rt, name)?;
    Ok(())
}

#[test]
fn replaces_no_file_without_write_rights(rt: HostRuntime) -> Result<(), Fail> {
    keeps_over(&rt, 0o444, Err(KeepFault::Failed), b"old")?;
    keeps_over(&rt, 0o640, Ok(()), b"new")?;
    keeps_over(&rt, 0o600, Ok(()), b"new")
}

// The third read fails, and two take the four bytes that tell that the file has more than three.
#[test]
fn reads_one_byte_past_the_limit_at_most(rt: HostRuntime) -> Result<(), Fail> {
    fs::write(&rt, "long-file-of-a-test", b"the long file")?;
    let system = Failing {
        system: &rt,
        fails: Fails::Read(2),
    };
    let mut store = DirStore::new((system, rt.alloc()));
    let mut file = Vec::new(rt.alloc());
    let fetched = store.fetch("long-file-of-a-test", 3, &mut file);
    assert_eq!(rt; fetched, Err(FetchFault::Large));
    file.clear();
    let fetched = store.fetch("long-file-of-a-test", 4, &mut file);
    assert_eq!(rt; fetched, Err(FetchFault::Failed));
    fs::remove_file(&rt, "long-file-of-a-test")?;
    Ok(())
}
