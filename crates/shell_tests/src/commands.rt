//! Worked lines, with the command or the refusal that each must give.

ghost use Rattle.std.specs.Prelude.{IsTrue};
ghost use Rattle.elem_core.specs.Cell.{IsCell};

use elem_core::{MAX_LINE, NEWLINE};
use shell_words::{BadLine, Command, Edit, read_line};
use std::process::Abort;

// Whether a line may be read: no newline, and not over-long.
fn is_cell(line: &[u8]) -> bool
    ensures { IsTrue result → IsCell line.now }
{
    line.len() <= MAX_LINE && !line.contains(&NEWLINE)
}

// What the line reads as.
fn read<'a>(rt: &impl Abort, line: &'a [u8]) -> Result<Command<'a>, BadLine> {
    assert!(rt; is_cell(line));
    read_line(line)
}

// A command as its word, its names, its numbers and its text, with an empty one or 0 where it has none.
type CommandParts<'a> = (&'static str, &'a str, &'a str, u32, u32, &'a str);

// An edit as its word, its names, its numbers and its text.
fn edit_parts<'a>(edit: Edit<'a>) -> CommandParts<'a> {
    match edit {
        Edit::New(buffer) => ("new", buffer.as_str(), "", 0, 0, ""),
        Edit::Add(buffer, text) => ("add", buffer.as_str(), "", 0, 0, text.as_str()),
        Edit::Set(buffer, index, text) => ("set", buffer.as_str(), "", index, 0, text.as_str()),
        Edit::Put(buffer, index, text) => ("put", buffer.as_str(), "", index, 0, text.as_str()),
        Edit::Del(buffer, from, to) => ("del", buffer.as_str(), "", from, to, ""),
        Edit::Cat(buffer, other) => ("cat", buffer.as_str(), other.as_str(), 0, 0, ""),
        Edit::Cut(buffer, from, to, other) => (
            "cut",
            buffer.as_str(),
            other.as_str(),
            from,
            to,
            "",
        ),
        Edit::Copy(buffer, other) => ("copy", buffer.as_str(), other.as_str(), 0, 0, ""),
        Edit::Drop(buffer) => ("drop", buffer.as_str(), "", 0, 0, ""),
        Edit::Star(name) => ("star", name.as_str(), "", 0, 0, ""),
        Edit::Unstar(name) => ("unstar", name.as_str(), "", 0, 0, ""),
        Edit::StarMerge(version) => ("starmerge", version.as_str(), "", 0, 0, ""),
        Edit::StarBoth(version) => ("starboth", version.as_str(), "", 0, 0, ""),
        Edit::StarLess(version) => ("starless", version.as_str(), "", 0, 0, ""),
        Edit::Merge(version) => ("merge", version.as_str(), "", 0, 0, ""),
    }
}

fn parts<'a>(command: Command<'a>) -> CommandParts<'a> {
    match command {
        Command::Edit(edit) => edit_parts(edit),
        Command::Mark(version) => ("mark", version.as_str(), "", 0, 0, ""),
        Command::Unmark(version) => ("unmark", version.as_str(), "", 0, 0, ""),
        Command::Back(version) => ("back", version.as_str(), "", 0, 0, ""),
        Command::Undo => ("undo", "", "", 0, 0, ""),
        Command::Redo => ("redo", "", "", 0, 0, ""),
        Command::Begin => ("begin", "", "", 0, 0, ""),
        Command::End => ("end", "", "", 0, 0, ""),
        Command::Abort => ("abort", "", "", 0, 0, ""),
        Command::History(count) => ("history", "", "", count, 0, ""),
        Command::Get(buffer, index) => ("get", buffer.as_str(), "", index, 0, ""),
        Command::Len(buffer) => ("len", buffer.as_str(), "", 0, 0, ""),
        Command::Show(buffer, from, to) => ("show", buffer.as_str(), "", from, to, ""),
        Command::List => ("list", "", "", 0, 0, ""),
        Command::Stars => ("stars", "", "", 0, 0, ""),
        Command::Marks => ("marks", "", "", 0, 0, ""),
        Command::Same(buffer, other) => ("same", buffer.as_str(), other.as_str(), 0, 0, ""),
        Command::Eqv(version, other) => ("eqv", version.as_str(), other.as_str(), 0, 0, ""),
        Command::Stats => ("stats", "", "", 0, 0, ""),
        Command::Made => ("made", "", "", 0, 0, ""),
        Command::Read(buffer, file) => ("read", buffer.as_str(), file.as_str(), 0, 0, ""),
        Command::Write(buffer, file) => ("write", buffer.as_str(), file.as_str(), 0, 0, ""),
        Command::Save(file) => ("save", file.as_str(), "", 0, 0, ""),
        Command::Load(file) => ("load", file.as_str(), "", 0, 0, ""),
        Command::Part(file, number) => ("part", file.as_str(), "", number, 0, ""),
        Command::Chain(file, number) => ("chain", file.as_str(), "", number, 0, ""),
        Command::Indent(count, file) => ("indent", file.as_str(), "", count, 0, ""),
        Command::Dedent(count, file) => ("dedent", file.as_str(), "", count, 0, ""),
        Command::Quit => ("quit", "", "", 0, 0, ""),
    }
}

// The longest name, of 64 bytes.
const LONGEST: &str = "abcdefghijklmnopqrstuvwxyzABCDEFGHIJKLMNOPQRSTUVWXYZ0123456789._";

// That name behind `new `.
const NEW_LONGEST: &str = "new abcdefghijklmnopqrstuvwxyzABCDEFGHIJKLMNOPQRSTUVWXYZ0123456789._";

// The same with one byte more.
const NEW_LONGER: &str = "new abcdefghijklmnopqrstuvwxyzABCDEFGHIJKLMNOPQRSTUVWXYZ0123456789._-";

// Reads the line and compares its parts.
fn reads(rt: &impl Abort, line: &str, want: CommandParts<'_>) {
    match read(rt, line.as_bytes()) {
        Ok(command) => {
            assert!(rt; parts(command) == want, "at {line}");
        }
        Err(bad) => panic!(rt; "{bad} at {line}"),
    }
}

// Commands that are a word alone.
const BARE: [&str; 11] = [
    "undo", "redo", "begin", "end", "abort", "list", "stars", "marks", "stats", "made", "quit",
];

#[test]
fn reads_words_alone(rt: HostRuntime) {
    for line in BARE {
        reads(&rt, line, (line, "", "", 0, 0, ""));
    }
}

// Commands of a word and a name.
const NAMED: [(&str, &str, &str); 16] = [
    ("new a", "new", "a"),
    ("new Z.9_-", "new", "Z.9_-"),
    (NEW_LONGEST, "new", LONGEST),
    ("drop a", "drop", "a"),
    ("star z", "star", "z"),
    ("unstar y", "unstar", "y"),
    ("starmerge v", "starmerge", "v"),
    ("starboth v", "starboth", "v"),
    ("starless v", "starless", "v"),
    ("merge v", "merge", "v"),
    ("mark v", "mark", "v"),
    ("unmark v", "unmark", "v"),
    ("back v", "back", "v"),
    ("len a", "len", "a"),
    ("save s.json", "save", "s.json"),
    ("load d", "load", "d"),
];

#[test]
fn reads_names(rt: HostRuntime) {
    for (line, word, name) in NAMED {
        reads(&rt, line, (word, name, "", 0, 0, ""));
    }
}

// Edits that end in a text, with their word, name, index or 0, and text.
const TEXTS: [(&str, &str, &str, u32, &str); 9] = [
    ("add a hello", "add", "a", 0, "hello"),
    ("add a ", "add", "a", 0, ""),
    ("add a  two  spaces ", "add", "a", 0, " two  spaces "),
    ("add a \r", "add", "a", 0, "\r"),
    ("add a tab\tand é\r", "add", "a", 0, "tab\tand é\r"),
    ("set a 0 x", "set", "a", 0, "x"),
    ("set a 1 two  2 ", "set", "a", 1, "two  2 "),
    ("put a 2 ", "put", "a", 2, ""),
    ("put a 4294967295 x", "put", "a", 4_294_967_295, "x"),
];

#[test]
fn reads_texts(rt: HostRuntime) {
    for (line, word, name, index, text) in TEXTS {
        reads(&rt, line, (word, name, "", index, 0, text));
    }
}

// Commands with one number, and with one name but for `history`.
const NUMBERED: [(&str, &str, &str, u32); 12] = [
    ("history 0", "history", "", 0),
    ("history 4294967295", "history", "", 4_294_967_295),
    ("get a 0", "get", "a", 0),
    ("get a 10", "get", "a", 10),
    ("get a 4294967295", "get", "a", 4_294_967_295),
    ("part s 1", "part", "s", 1),
    ("chain s 4294967295", "chain", "s", 4_294_967_295),
    // With its full stop and its number the file has a name of 64 bytes.
    (
        "part abcdefghijklmnopqrstuvwxyzABCDEFGHIJKLMNOPQRSTUVWXYZ0123456789 1",
        "part",
        "abcdefghijklmnopqrstuvwxyzABCDEFGHIJKLMNOPQRSTUVWXYZ0123456789",
        1,
    ),
    (
        "part abcdefghijklmnopqrstuvwxyzABCDEFGHIJKLMNOPQRSTUVWXYZ012345678 10",
        "part",
        "abcdefghijklmnopqrstuvwxyzABCDEFGHIJKLMNOPQRSTUVWXYZ012345678",
        10,
    ),
    ("indent 2 u", "indent", "u", 2),
    ("indent 4294967295 u", "indent", "u", 4_294_967_295),
    ("dedent 0 w", "dedent", "w", 0),
];

#[test]
fn reads_a_number(rt: HostRuntime) {
    for (line, word, name, number) in NUMBERED {
        reads(&rt, line, (word, name, "", number, 0, ""));
    }
}

// Commands with two names.
const TWO_NAMES: [(&str, &str, &str, &str); 8] = [
    ("cat a b", "cat", "a", "b"),
    ("cat a a", "cat", "a", "a"),
    ("copy b c", "copy", "b", "c"),
    ("same b c", "same", "b", "c"),
    ("same b b", "same", "b", "b"),
    ("eqv v w", "eqv", "v", "w"),
    ("read n notes.txt", "read", "n", "notes.txt"),
    ("write n out", "write", "n", "out"),
];

#[test]
fn reads_two_names(rt: HostRuntime) {
    for (line, word, name, other) in TWO_NAMES {
        reads(&rt, line, (word, name, other, 0, 0, ""));
    }
}

// Commands with two numbers, and `cut` with two names.
const TWO_NUMBERS: [(&str, &str, &str, &str, u32, u32); 5] = [
    ("del a 1 3", "del", "a", "", 1, 3),
    ("del a 3 1", "del", "a", "", 3, 1),
    ("cut a 0 2 b", "cut", "a", "b", 0, 2),
    ("show a 1 1", "show", "a", "", 1, 1),
    ("show a 0 2", "show", "a", "", 0, 2),
];

#[test]
fn reads_two_numbers(rt: HostRuntime) {
    for (line, word, name, other, first, second) in TWO_NUMBERS {
        reads(&rt, line, (word, name, other, first, second, ""));
    }
}

// Reads the lines, each of which must be refused as this.
fn refuses(rt: &impl Abort, lines: &[&str], want: BadLine) {
    for line in lines {
        assert!(rt; read(rt, line.as_bytes()).err() == Some(want), "at {line}");
    }
}

// Words that are none, and a wrong number of pieces.
const NO_WORDS: [&str; 21] = [
    "",
    " ",
    "hello",
    "New a",
    " new a",
    "new\u{a0}a",
    "sames",
    "new",
    "new a ",
    "new a b",
    "new  a",
    "add",
    "add a",
    "len",
    "len a ",
    "list ",
    "list a",
    "list\r",
    "quit ",
    "quit a",
    "quit\r",
];

#[test]
fn refuses_what_is_no_word(rt: HostRuntime) {
    refuses(&rt, &NO_WORDS, BadLine::Command);
}

// A wrong number of pieces.
const WRONG_PIECES: [&str; 28] = [
    "set a 0",
    "put a",
    "del a 0",
    "del a 0 1 ",
    "cat a",
    "cat a b c",
    "cut a 0 2",
    "cut a 0 2 b ",
    "copy  a b",
    "drop",
    "star",
    "undo ",
    "end x",
    "show a 1",
    "same b",
    "same b c d",
    "eqv v",
    "eqv v w ",
    "stats x",
    "save",
    "load s t",
    "stats ",
    "stats\r",
    "made x",
    "made ",
    "made\r",
    "Made",
    "mades",
];

#[test]
fn refuses_a_wrong_number_of_pieces(rt: HostRuntime) {
    refuses(&rt, &WRONG_PIECES, BadLine::Command);
}

// A number that doesn't read, also behind what is no name.
const NO_NUMBERS: [&str; 21] = [
    "get a",
    "get a ",
    "get a 01",
    "get a 00",
    "get a +1",
    "get a -1",
    "get a 1 ",
    "get a  1",
    "get a 1x",
    "get a 1\r",
    "get a 0 x",
    "get .x 01",
    "get .x",
    "get  ",
    "get a 4294967296",
    "get a 10000000000",
    "get a 1.0",
    "get a é",
    "len .x y",
    "new .x ",
    "list .x",
];

#[test]
fn refuses_what_is_no_number(rt: HostRuntime) {
    refuses(&rt, &NO_NUMBERS, BadLine::Command);
}

// The same and a wrong number of pieces at other commands.
const MORE_COMMANDS: [&str; 21] = [
    "cut .x 0 02 b",
    "cut a 0 -1 .x",
    "del a 00 1",
    "show a 0 1x",
    "set a 01 t",
    "put .x x t",
    "set a  t",
    "merge",
    "merge v w",
    "starmerge v ",
    "starless",
    "indent u 2",
    "indent 01 u",
    "dedent 1",
    "part",
    "part s",
    "part s 01",
    "chain s 1 ",
    "chain .s x",
    "chain 1 s",
    "part s 4294967296",
];

#[test]
fn refuses_such_pieces_elsewhere(rt: HostRuntime) {
    refuses(&rt, &MORE_COMMANDS, BadLine::Command);
}

// A name that is none.
const NO_NAMES: [&str; 21] = [
    "merge .v",
    "starmerge ",
    "starboth -v",
    "starless é",
    "indent 2 .u",
    "dedent 2 ",
    "indent 2 a/b",
    "part .s 1",
    "chain -s 1",
    "part abcdefghijklmnopqrstuvwxyzABCDEFGHIJKLMNOPQRSTUVWXYZ0123456789. 1",
    "chain abcdefghijklmnopqrstuvwxyzABCDEFGHIJKLMNOPQRSTUVWXYZ0123456789 10",
    "part abcdefghijklmnopqrstuvwxyzABCDEFGHIJKLMNOPQRSTUVWXYZ0123456789._ 1",
    "chain abcdefghijklmnopqrstuvwxyzABCDEFGHIJKLMNOPQRSTUVWXYZ01234567 1000",
    "part abcdefghijklmnopqrstuvwxyzABCDEFGHIJKLMNOPQRSTUVWXYZ012345678 100",
    "new .x",
    "new -x",
    "new ",
    "new a\r",
    "new é",
    "new a/b",
    NEW_LONGER,
];

#[test]
fn refuses_what_is_no_name(rt: HostRuntime) {
    refuses(&rt, &NO_NAMES, BadLine::Name);
}

// The same at other commands.
const MORE_NAMES: [&str; 28] = [
    "add .x hello",
    "add  x",
    "add a\r x",
    "get .x 0",
    "get  0",
    "len .x",
    "len a\r",
    "cat a .b",
    "cat .a b",
    "copy a ",
    "cut a 0 2 .b",
    "cut -a 9 2 b",
    "mark é",
    "star ",
    "set .x 0 t",
    "put  0 t",
    "del .x 0 1",
    "show \t 0 1",
    "back ",
    "unmark .",
    "drop -",
    "same b .",
    "same . b",
    "eqv v ",
    "eqv -v w",
    "save a/b",
    "load a/b",
    "load s\r",
];

#[test]
fn refuses_such_names_elsewhere(rt: HostRuntime) {
    refuses(&rt, &MORE_NAMES, BadLine::Name);
}

// Lines that are no text.
const NO_TEXT: [&[u8]; 7] = [
    b"\xff",
    b"add a \xff",
    b"new \xff",
    b"hello \xff",
    b"get .x \xc3",
    b"list \xed\xa0\x80",
    b"\xc0\xaf new a",
];

#[test]
fn refuses_bytes_first(rt: HostRuntime) {
    for line in NO_TEXT {
        assert!(rt; read(&rt, line).err() == Some(BadLine::Utf8), "at {line:?}");
    }
}
