//! The pieces of a line: its word, and the names, numbers and text behind the word.
//!
//! A refusal for the form of a line comes before one for its names, so each command takes all its
//! pieces first, and then makes names of those that must be names.

ghost use Rattle.std.specs.Prelude.{◌≡◌, ℕ, List, Ok, IfOk, option_copied};
ghost use Rattle.std.specs.List.{position};
ghost use Rattle.std.specs.Option.{ForSome};
ghost use Rattle.elem_core.specs.Cell.{IsCell};
ghost use Rattle.shell_terms.specs.Command.{PlainCommand};
ghost use Rattle.shell_words.specs.Files.{numbered};
ghost use Rattle.elem_core.specs.Shown.{name_bytes, line_bytes};
ghost use Rattle.shell_words.specs.Grammar.{RestMeaning, is_space, first_piece, after_piece, if_named};
ghost use Rattle.shell_words.specs.Grammar.{the_end, the_chain_end, a_name, a_number, the_text};
ghost use Rattle.shell_words.specs.Number.{number_of};
ghost use Rattle.shell_words.specs.Shown.{go_on};

use crate::BadLine;
use crate::numbers::read_number;
use arrayvec::ArrayString;
use elem_core::{Line, MAX_NAME, Name};
use itoa::Buffer;

/// The most bytes of the name of a partial document: those of a name, a full stop, and the ten digits of a number.
pub const MOST_NUMBERED: usize = MAX_NAME + 11;

// The first piece of the text, and what stands behind the space that ends it.
pub(crate) fn split_piece(text: &str) -> (&str, Option<&str>)
    ensures piece { result.0.now ≡ first_piece text.now }
    ensures rest { option_copied result.1 ≡ after_piece text.now }
    ensures cell { IsCell text.now → ForSome (option_copied result.1) IsCell }
{
    match space_in(text.as_bytes()) {
        Some(at) => (&text[..at], Some(&text[at + 1..])),
        None => (text, None),
    }
}

// The place of the first space. A piece is short, so its bytes are looked at one by one.
fn space_in(bytes: &[u8]) -> Option<usize>
    ensures { result ≡ position is_space bytes.now }
{
    bytes.iter().position(|byte| *byte == b' ')
}

// Refuses what stands behind the last piece of a command.
pub(crate) fn nothing(rest: Option<&str>) -> Result<(), BadLine>
    ensures { (c : PlainCommand) → the_end c (option_copied rest.entry)
        ≡ go_on result (λ _. Ok c) }
{
    match rest {
        Some(_) => Err(BadLine::Command),
        None => Ok(()),
    }
}

// The one piece of a command `WORD NAME`.
pub(crate) fn name(rest: Option<&str>) -> Result<Name<'_>, BadLine>
    ensures { (f : List ℕ → PlainCommand)
        → a_name (λ b. the_end (f b)) (option_copied rest.entry)
        ≡ go_on result (λ read. Ok (f (name_bytes read))) }
{
    let piece = last_piece(rest)?;
    named(piece)
}

// The one piece of a command `WORD NUMBER`.
pub(crate) fn number(rest: Option<&str>) -> Result<u32, BadLine>
    ensures { (f : ℕ → PlainCommand) → a_number (λ n. the_end (f n)) (option_copied rest.entry)
        ≡ go_on result (λ read. Ok (f read)) }
{
    let (number, rest) = next_number(rest)?;
    nothing(rest)?;
    Ok(number)
}

// The pieces of a command `WORD NAME NAME`.
pub(crate) fn two_names(rest: Option<&str>) -> Result<(Name<'_>, Name<'_>), BadLine>
    ensures { (f : List ℕ → List ℕ → PlainCommand)
        → a_name (λ b. a_name (λ c. the_end (f b c))) (option_copied rest.entry)
        ≡ go_on result (λ read. Ok (f (name_bytes read.0) (name_bytes read.1))) }
{
    let (piece, rest) = next_piece(rest)?;
    let other = last_piece(rest)?;
    both_named(piece, other)
}

// The pieces of a command `WORD NAME NUMBER`.
pub(crate) fn name_and_number(rest: Option<&str>) -> Result<(Name<'_>, u32), BadLine>
    ensures { (f : List ℕ → ℕ → PlainCommand)
        → a_name (λ b. a_number (λ i. the_end (f b i))) (option_copied rest.entry)
        ≡ go_on result (λ read. Ok (f (name_bytes read.0) read.1)) }
{
    let (piece, rest) = next_piece(rest)?;
    let (number, rest) = next_number(rest)?;
    nothing(rest)?;
    let name = named(piece)?;
    Ok((name, number))
}

// The pieces of a command `WORD FILE NUMBER` on a chain of files. The file of this number has a name too.
pub(crate) fn chain(rest: Option<&str>) -> Result<(Name<'_>, u32), BadLine>
    ensures { (f : List ℕ → ℕ → PlainCommand)
        → a_name (λ b. a_number (λ i. the_chain_end b i (f b i))) (option_copied rest.entry)
        ≡ go_on result (λ read. Ok (f (name_bytes read.0) read.1)) }
{
    let (piece, rest) = next_piece(rest)?;
    let (number, rest) = next_number(rest)?;
    nothing(rest)?;
    let file = named(piece)?;
    named(&numbered(file, number))?;
    Ok((file, number))
}

/// The name of the partial document of this number behind the file. It may be too long for a name.
pub fn numbered(file: Name<'_>, number: u32) -> ArrayString<MOST_NUMBERED>
    ensures { result.bytes ≡ numbered (name_bytes file.entry) number }
{
    let mut digits = Buffer::new();
    let mut name = ArrayString::new();
    name.push_str(file.as_str());
    name.push_str(".");
    name.push_str(digits.format(number));
    name
}

// The pieces of a command `WORD NUMBER NAME`.
pub(crate) fn number_and_name(rest: Option<&str>) -> Result<(u32, Name<'_>), BadLine>
    ensures { (f : ℕ → List ℕ → PlainCommand)
        → a_number (λ i. a_name (λ b. the_end (f i b))) (option_copied rest.entry)
        ≡ go_on result (λ read. Ok (f read.0 (name_bytes read.1))) }
{
    let (number, rest) = next_number(rest)?;
    let name = name(rest)?;
    Ok((number, name))
}

// The pieces of a command `WORD NAME NUMBER NUMBER`.
pub(crate) fn name_and_range(rest: Option<&str>) -> Result<(Name<'_>, u32, u32), BadLine>
    ensures { (f : List ℕ → ℕ → ℕ → PlainCommand)
        → a_name (λ b. a_number (λ i. a_number (λ j. the_end (f b i j)))) (option_copied rest.entry)
        ≡ go_on result (λ read. Ok (f (name_bytes read.0) read.1 read.2)) }
{
    let (piece, rest) = next_piece(rest)?;
    let (from, to, rest) = next_range(rest)?;
    nothing(rest)?;
    let name = named(piece)?;
    Ok((name, from, to))
}

// The pieces of a command `WORD NAME NUMBER NUMBER NAME`.
pub(crate) fn name_range_and_name(
    rest: Option<&str>,
) -> Result<(Name<'_>, u32, u32, Name<'_>), BadLine>
    ensures { (f : List ℕ → ℕ → ℕ → List ℕ → PlainCommand)
        → a_name (λ b. a_number (λ i. a_number (λ j. a_name (λ c. the_end (f b i j c))))) (option_copied rest.entry)
        ≡ go_on result (λ read. Ok (f (name_bytes read.0) read.1 read.2 (name_bytes read.3))) }
{
    let (piece, rest) = next_piece(rest)?;
    let (from, to, rest) = next_range(rest)?;
    let other = last_piece(rest)?;
    let (name, other) = both_named(piece, other)?;
    Ok((name, from, to, other))
}

// The pieces of a command `WORD NAME TEXT`.
pub(crate) fn name_and_text(rest: Option<&str>) -> Result<(Name<'_>, Line<'_>), BadLine>
    requires { ForSome (option_copied rest) IsCell }
    ensures { (f : List ℕ → List ℕ → PlainCommand)
        → a_name (λ b. the_text (λ t. f b t)) (option_copied rest.entry)
        ≡ go_on result (λ read. Ok (f (name_bytes read.0) (line_bytes read.1))) }
{
    let (piece, rest) = next_piece(rest)?;
    let text = text(rest)?;
    let name = named(piece)?;
    Ok((name, text))
}

// The pieces of a command `WORD NAME NUMBER TEXT`.
pub(crate) fn name_number_and_text(rest: Option<&str>) -> Result<(Name<'_>, u32, Line<'_>), BadLine>
    requires { ForSome (option_copied rest) IsCell }
    ensures { (f : List ℕ → ℕ → List ℕ → PlainCommand)
        → a_name (λ b. a_number (λ i. the_text (λ t. f b i t))) (option_copied rest.entry)
        ≡ go_on result (λ read. Ok (f (name_bytes read.0) read.1 (line_bytes read.2))) }
{
    let (piece, rest) = next_piece(rest)?;
    let (number, rest) = next_number(rest)?;
    let text = text(rest)?;
    let name = named(piece)?;
    Ok((name, number, text))
}

// The next piece, which is to be a name, and what follows it.
fn next_piece(rest: Option<&str>) -> Result<(&str, Option<&str>), BadLine>
    ensures read { (more : List ℕ → RestMeaning) → a_name more (option_copied rest.entry)
        ≡ go_on result (λ read. if_named read.0.now (more read.0.now (option_copied read.1))) }
    ensures cell { ForSome (option_copied rest.entry) IsCell
        → IfOk result (λ read. ForSome (option_copied read.1) IsCell) }
{
    match rest {
        Some(text) => Ok(split_piece(text)),
        None => Err(BadLine::Command),
    }
}

// The next piece, which is to be a number, and what follows it.
fn next_number(rest: Option<&str>) -> Result<(u32, Option<&str>), BadLine>
    ensures read { (more : ℕ → RestMeaning) → a_number more (option_copied rest.entry)
        ≡ go_on result (λ read. more read.0 (option_copied read.1)) }
    ensures cell { ForSome (option_copied rest.entry) IsCell
        → IfOk result (λ read. ForSome (option_copied read.1) IsCell) }
{
    let Some(text) = rest else {
        return Err(BadLine::Command);
    };
    let (piece, rest) = split_piece(text);
    match decimal(piece) {
        Some(number) => Ok((number, rest)),
        None => Err(BadLine::Command),
    }
}

// The next two pieces, which are to be numbers, and what follows them.
fn next_range(rest: Option<&str>) -> Result<(u32, u32, Option<&str>), BadLine>
    ensures { (more : ℕ → ℕ → RestMeaning) → a_number (λ i. a_number (more i)) (option_copied rest.entry)
        ≡ go_on result (λ read. more read.0 read.1 (option_copied read.2)) }
{
    let (from, rest) = next_number(rest)?;
    let (to, rest) = next_number(rest)?;
    Ok((from, to, rest))
}

// The last piece, which is to be a name.
fn last_piece(rest: Option<&str>) -> Result<&str, BadLine>
    ensures { (f : List ℕ → PlainCommand) → a_name (λ b. the_end (f b)) (option_copied rest.entry)
        ≡ go_on result (λ read. if_named read.now (Ok (f read.now))) }
{
    let (piece, rest) = next_piece(rest)?;
    nothing(rest)?;
    Ok(piece)
}

// All the rest, as the text of a command.
fn text(rest: Option<&str>) -> Result<Line<'_>, BadLine>
    requires { ForSome (option_copied rest) IsCell }
    ensures { (f : List ℕ → PlainCommand) → the_text f (option_copied rest.entry)
        ≡ go_on result (λ read. Ok (f (line_bytes read))) }
{
    match rest {
        // The line is a cell, and so is each part of it.
        Some(text) => Ok(Line::of_cell(text)),
        None => Err(BadLine::Command),
    }
}

// The piece as a name.
fn named(piece: &str) -> Result<Name<'_>, BadLine>
    ensures { (f : List ℕ → PlainCommand) → if_named piece.now (Ok (f piece.now))
        ≡ go_on result (λ read. Ok (f (name_bytes read))) }
{
    match Name::new(piece) {
        Some(name) => Ok(name),
        None => Err(BadLine::Name),
    }
}

// The two pieces as names.
fn both_named<'a>(piece: &'a str, other: &'a str) -> Result<(Name<'a>, Name<'a>), BadLine>
    ensures { (f : List ℕ → List ℕ → PlainCommand)
        → if_named piece.now (if_named other.now (Ok (f piece.now other.now)))
        ≡ go_on result (λ read. Ok (f (name_bytes read.0) (name_bytes read.1))) }
{
    let name = named(piece)?;
    let other = named(other)?;
    Ok((name, other))
}

// The number that the piece writes, if it fits 32 bits.
fn decimal(piece: &str) -> Option<u32>
    ensures { result ≡ number_of piece.now }
{
    match read_number(piece, u64::from(u32::MAX)) {
        Some(number) => Some(number as u32),
        None => None,
    }
}
