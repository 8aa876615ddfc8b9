//! Scripts that can run while memory is refused: `rt try --test --fail-alloc N` refuses the Nth allocation of a test. With ample memory
//! they pass as well; that memory is given then, `inputs` and the examples show. Where the devices or the space get no memory, a test has
//! nothing to show, and ends.

use super::trial::{FULL_UNDO, Given, TWO_CELLS, WHOLE, run_given};
use crate::execute::execute;
use crate::run::Status;
use elem_core::{CODE_BITS, Line};
use shell_io::{MemSink, MemStore, Store};
use space_state::Space;
use std::alloc::Global;
use std::process::Abort;
use std::test::Fail;

// More bytes than the replies of a script.
const ROOM: usize = 20_000;

const REFUSED: &[u8] = b"! memory\n";

// What lines are executed on.
#[derive(Drop)]
struct Machine {
    space: Space,
    sink: MemSink,
    store: MemStore,
}

// A machine whose store has these bytes as the file `d`. None where memory is refused.
fn machine_with(alloc: Global, held: &[u8]) -> Option<Machine> {
    let sink = MemSink::new(alloc, ROOM, ROOM, Vec::new(alloc)).ok()?;
    let mut store = MemStore::new(alloc, Vec::new(alloc), Vec::new(alloc));
    store.keep("d", held).ok()?;
    let space = Space::new(alloc, CODE_BITS).ok()?;
    Some(Machine { space, sink, store })
}

impl Machine {
    // Executes a line, and tells whether its reply went out. No other function sees the clauses of that call.
    fn execute(&mut self, alloc: Global, line: Line<'_>) -> bool {
        execute(
            alloc,
            &mut self.space,
            line.as_str().as_bytes(),
            &mut self.sink,
            &mut self.store,
        )
        .is_ok()
    }

    // How many rows the space has, how many it has made, and how many bytes were written.
    fn counts(&self) -> (usize, u64, usize) {
        (
            self.space.rows(),
            self.space.made(),
            self.sink.bytes().len(),
        )
    }

    // The bytes that were written behind so many.
    fn reply(&self, before: usize) -> &[u8] {
        self.sink.bytes().get(before..).unwrap_or(b"")
    }

    // Gives a line, and once more where memory is refused, which leaves the space as it was. Gives the reply.
    fn give<R: Abort + AllocGlobal>(&mut self, rt: &R, line: &str) -> &[u8] {
        let Some(line) = Line::new(line) else {
            return b"";
        };
        let (rows, made, mut before) = self.counts();
        assert!(rt; self.execute(rt.alloc(), line));
        if self.reply(before) == REFUSED {
            let (rows_after, made_after, written) = self.counts();
            assert_eq!(rt; (rows_after, made_after), (rows, made));
            before = written;
            assert!(rt; self.execute(rt.alloc(), line));
        }
        self.reply(before)
    }

    // Gives a line, whose reply is a number.
    fn ask<R: Abort + AllocGlobal>(&mut self, rt: &R, line: &str) -> u64 {
        let reply = str::from_utf8(self.give(rt, line)).unwrap_or("");
        let number = reply.strip_prefix("= ").unwrap_or("").trim();
        number.parse().unwrap_or(0)
    }

    // Gives each line, and compares the reply.
    fn give_all<R: Abort + AllocGlobal>(&mut self, rt: &R, lines: &[(&str, &str)]) {
        for (line, reply) in lines {
            assert_eq!(rt; self.give(rt, line), reply.as_bytes(), "{line}");
        }
    }
}

// An undo takes back an edit, and the next edit leaves nothing to redo. By a bound of one the state before the last edit is kept alone.
const UNDONE: [(&str, &str); 12] = [
    ("new a", "ok\n"),
    ("add a x", "ok\n"),
    ("undo", "ok\n"),
    ("add a y", "ok\n"),
    ("redo", "! empty\n"),
    ("get a 0", "= y\n"),
    ("history 1", "ok\n"),
    ("set a 0 z", "ok\n"),
    ("set a 0 w", "ok\n"),
    ("undo", "ok\n"),
    ("undo", "! empty\n"),
    ("get a 0", "= z\n"),
];

// Lines are cut out, joined and deleted.
const CUT: [(&str, &str); 11] = [
    ("new a", "ok\n"),
    ("add a p", "ok\n"),
    ("add a q", "ok\n"),
    ("add a r", "ok\n"),
    ("cut a 0 2 b", "ok\n"),
    ("show b 0 2", "= p\n= q\nok\n"),
    ("len a", "= 1\n"),
    ("cat a b", "ok\n"),
    ("show a 0 3", "= r\n= p\n= q\nok\n"),
    ("del a 1 3", "ok\n"),
    ("len a", "= 1\n"),
];

// Stars, copies and lists.
const STARRED: [(&str, &str); 11] = [
    ("star z", "ok\n"),
    ("star z", "! exists\n"),
    ("new b", "ok\n"),
    ("new B", "ok\n"),
    ("copy b c", "ok\n"),
    ("same b c", "= yes\n"),
    ("list", "= B 0\n= b 0\n= c 0\nok\n"),
    ("stars", "= z\nok\n"),
    ("unstar y", "! none\n"),
    ("undo", "ok\n"),
    ("list", "= B 0\n= b 0\nok\n"),
];

// Merges with a version.
const MERGED: [(&str, &str); 18] = [
    ("star y", "ok\n"),
    ("star z", "ok\n"),
    ("new b", "ok\n"),
    ("add b x", "ok\n"),
    ("mark v", "ok\n"),
    ("unstar y", "ok\n"),
    ("star w", "ok\n"),
    ("drop b", "ok\n"),
    ("starmerge v", "ok\n"),
    ("stars", "= w\n= y\n= z\nok\n"),
    ("starless v", "ok\n"),
    ("stars", "= w\nok\n"),
    ("undo", "ok\n"),
    ("starboth v", "ok\n"),
    ("stars", "= y\n= z\nok\n"),
    ("merge v", "ok\n"),
    ("show b 0 1", "= x\nok\n"),
    ("merge u", "! none\n"),
];

// Gives the lines to a machine whose store has this document as the file `d`, where there is one; the lines save it as `e`.
fn follows<R: Abort + AllocGlobal>(rt: &R, held: &str, saved: &str, lines: &[(&str, &str)]) {
    let Some(mut machine) = machine_with(rt.alloc(), held.as_bytes()) else {
        return;
    };
    machine.give_all(rt, lines);
    if !held.is_empty() {
        assert_eq!(rt; machine.store.file("e"), Some(saved.as_bytes()));
    }
}

// A thousand edits in a batch make few more rows than they leave.
fn edits_in_place<R: Abort + AllocGlobal>(rt: &R) {
    let Some(mut machine) = machine_with(rt.alloc(), b"") else {
        return;
    };
    for line in ["new a", "begin", "add a x"] {
        assert_eq!(rt; machine.give(rt, line), b"ok\n".as_slice());
    }
    let rows = machine.ask(rt, "stats");
    let made = machine.ask(rt, "made");
    for _ in 0..1_000u32 {
        assert_eq!(rt; machine.give(rt, "set a 0 y"), b"ok\n".as_slice());
    }
    let more_rows = machine.ask(rt, "stats");
    let more_made = machine.ask(rt, "made");
    assert!(rt; rows > 0 && more_rows > 0 && made > 0 && more_made > made);
    assert!(rt;
        more_made.saturating_add(rows) <= made.saturating_add(more_rows).saturating_add(2_000)
    );
}

#[test]
fn refused_rows(rt: HostRuntime) -> Result<(), Fail> {
    let rows: [&[(&str, &str)]; 4] = [&UNDONE, &CUT, &STARRED, &MERGED];
    for lines in rows {
        follows(&rt, "", "", lines);
    }
    edits_in_place(&rt);
    Ok(())
}

// Documents, what each is saved as, and lines with their replies that load it, ask, save it, and do an edit and take it back: of
// version 1 a new space with its empty rows shared, two names in a sub-node and one line twice, two equal lines, and of version 1 an
// undo with as many states as it may have. The two equal lines once more, in a chain whose second part takes back what the first one
// adds, and moved there and back.
const DOCUMENTS: [(&str, &str, &[(&str, &str)]); 6] = [
    (
        r#"{"bits":32,"format":"ewig-pool","roots":[1,0,2,2],"rows":[["m",0,0,0,[]],["s",[0,0]],["l",[]]],"version":1}"#,
        r#"{"bits":64,"format":"ewig-pool","history":4294967295,"roots":[1,0,2,2],"rows":[["m",0,0,0,[]],["s",[0,0]],["l",[]]],"version":3}"#,
        &[
            ("load d", "ok\n"),
            ("stats", "= 3\n"),
            ("list", "ok\n"),
            ("save e", "ok\n"),
            ("new n", "ok\n"),
            ("undo", "ok\n"),
            ("len n", "! none\n"),
        ],
    ),
    (
        r#"{"bits":32,"format":"ewig-pool","roots":[9,10,11,12],"rows":[["c","a"],["l",[]],["p",[0,1]],["c","A"],["l",[]],["p",[3,4]],["m",1,4194816,0,[2,5]],["m",0,0,4096,[6]],["m",0,0,0,[]],["s",[7,8]],["m",0,0,0,[]],["l",[]],["l",[]]],"version":1}"#,
        r#"{"bits":64,"format":"ewig-pool","history":4294967295,"roots":[9,8,10,11],"rows":[["c","a"],["l",[]],["p",[0,1]],["c","A"],["l",[]],["p",[3,4]],["m",1,8388624,0,[2,5]],["m",0,0,4096,[6]],["m",0,0,0,[]],["s",[7,8]],["l",[]],["l",[]]],"version":3}"#,
        &[
            ("load d", "ok\n"),
            ("stats", "= 12\n"),
            ("list", "= A 0\n= a 0\nok\n"),
            ("save e", "ok\n"),
            ("new n", "ok\n"),
            ("undo", "ok\n"),
            ("len n", "! none\n"),
        ],
    ),
    (
        r#"{"bits":32,"format":"ewig-pool","roots":[6,7,8,9],"rows":[["c","a"],["c","x"],["l",[1,1]],["p",[0,2]],["m",0,4096,0,[3]],["m",0,0,0,[]],["s",[4,5]],["m",0,0,0,[]],["l",[]],["l",[]]],"version":1}"#,
        r#"{"bits":64,"format":"ewig-pool","history":4294967295,"roots":[6,5,7,8],"rows":[["c","a"],["c","x"],["l",[1,1]],["p",[0,2]],["m",0,4096,0,[3]],["m",0,0,0,[]],["s",[4,5]],["l",[]],["l",[]]],"version":3}"#,
        &[
            ("load d", "ok\n"),
            ("stats", "= 9\n"),
            ("show a 0 2", "= x\n= x\nok\n"),
            ("save e", "ok\n"),
            ("new n", "ok\n"),
            ("undo", "ok\n"),
            ("len n", "! none\n"),
        ],
    ),
    (
        TWO_CELLS,
        TWO_CELLS,
        &[
            ("load d", "ok\n"),
            ("stats", "= 11\n"),
            ("same a b", "! none\n"),
            ("save e", "ok\n"),
            ("new n", "ok\n"),
            ("undo", "ok\n"),
            ("len n", "! none\n"),
        ],
    ),
    (
        FULL_UNDO,
        r#"{"bits":64,"format":"ewig-pool","history":4294967295,"roots":[1,0,14,15],"rows":[["m",0,0,0,[]],["s",[0,0]],["l",[1,1,1,1,1,1,1,1,1,1,1,1,1,1,1,1,1,1,1,1,1,1,1,1,1,1,1,1,1,1,1,1]],["i",1,[2,2,2,2,2,2,2,2,2,2,2,2,2,2,2,2,2,2,2,2,2,2,2,2,2,2,2,2,2,2,2,2]],["i",2,[3,3,3,3,3,3,3,3,3,3,3,3,3,3,3,3,3,3,3,3,3,3,3,3,3,3,3,3,3,3,3,3]],["i",3,[4,4,4,4,4,4,4,4,4,4,4,4,4,4,4,4,4,4,4,4,4,4,4,4,4,4,4,4,4,4,4,4]],["i",4,[5,5,5,5,5,5,5,5,5,5,5,5,5,5,5,5,5,5,5,5,5,5,5,5,5,5,5,5,5,5,5,5]],["i",5,[6,6,6,6,6,6,6,6,6,6,6,6,6,6,6,6,6,6,6,6,6,6,6,6,6,6,6,6,6,6,6,6]],["l",[1,1,1,1,1,1,1,1,1,1,1,1,1,1,1,1,1,1,1,1,1,1,1,1,1,1,1,1,1,1,1]],["i",1,[2,2,2,2,2,2,2,2,2,2,2,2,2,2,2,2,2,2,2,2,2,2,2,2,2,2,2,2,2,2,2,8]],["i",2,[3,3,3,3,3,3,3,3,3,3,3,3,3,3,3,3,3,3,3,3,3,3,3,3,3,3,3,3,3,3,3,9]],["i",3,[4,4,4,4,4,4,4,4,4,4,4,4,4,4,4,4,4,4,4,4,4,4,4,4,4,4,4,4,4,4,4,10]],["i",4,[5,5,5,5,5,5,5,5,5,5,5,5,5,5,5,5,5,5,5,5,5,5,5,5,5,5,5,5,5,5,5,11]],["i",5,[6,6,6,6,6,6,6,6,6,6,6,6,6,6,6,6,6,6,6,6,6,6,6,6,6,6,6,6,6,6,6,12]],["i",6,[7,7,7,13]],["l",[]]],"version":3}"#,
        &[
            ("load d", "ok\n"),
            ("stats", "= 16\n"),
            ("save e", "ok\n"),
            ("new n", "ok\n"),
            ("undo", "ok\n"),
            ("len n", "! none\n"),
        ],
    ),
    (
        TWO_CELLS,
        TWO_CELLS,
        &[
            ("load d", "ok\n"),
            ("add a y", "ok\n"),
            ("part d 1", "ok\n"),
            ("load d", "ok\n"),
            ("part d 2", "ok\n"),
            ("chain d 1", "ok\n"),
            ("show a 0 3", "= x\n= x\n= y\nok\n"),
            ("chain d 2", "ok\n"),
            ("len a", "= 2\n"),
            ("indent 2 i", "ok\n"),
            ("load i", "ok\n"),
            ("show a 0 2", "=   x\n=   x\nok\n"),
            ("dedent 80 e", "ok\n"),
        ],
    ),
];

#[test]
fn refused_loads(rt: HostRuntime) -> Result<(), Fail> {
    for &(held, saved, lines) in DOCUMENTS.iter() {
        follows(&rt, held, saved, lines);
    }
    Ok(())
}

// What the session writes where memory is ample, and where it is refused to its first or to its second line.
const WRITTEN: [&[u8]; 3] = [
    b"ok\nok\n= hello\n",
    b"! memory\n! none\n! none\n",
    b"ok\n! memory\n! range\n",
];

#[test]
fn refused_run(rt: HostRuntime) -> Result<(), Fail> {
    let given = Given {
        input: b"new a\nadd a hello\nget a 0\n",
        ..WHOLE
    };
    let Ok(left) = run_given(rt.alloc(), &given) else {
        return Ok(());
    };
    if left.status == Status::Memory {
        assert!(rt; left.sink.bytes().is_empty());
    } else {
        assert_eq!(rt; left.status, Status::Done);
        assert!(rt; WRITTEN.contains(&left.sink.bytes()));
    }
    Ok(())
}
