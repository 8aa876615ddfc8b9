//! The words after the program's name: what the program is asked for.
#![tactic(auto)]

ghost use Rattle.std.specs.Prelude.{◌≡◌, ◌≤◌, ℕ, List, map, string_bytes, true, false, IfOk, Some, None, option_copied};
ghost use Rattle.std.specs.Option.{ForSome};
ghost use Rattle.std.specs.List.{list_any};
ghost use Rattle.elem_core.specs.Naming.{IsName};
ghost use Rattle.elem_core.specs.Shown.{name_bytes};
ghost use Rattle.shell_words.specs.Number.{number_to};
ghost use Rattle.shell_options.specs.Options.{options, options_of, most_count, pair, if_given, name_in};
ghost use Rattle.shell_options.specs.Split.{AreWords, IsWord, Splits, is_bare};
ghost use Rattle.shell_options.specs.Shown.{ReadsWords, AreBounded, ReadsName, ReadsNumber, ReadsPair, CopiesName, fault_by};

pub mod worked;

use clap::error::ErrorKind;
use clap::{Arg, ArgMatches, Command, Error};
use elem_core::{CODE_BITS, Name};
use shell_words::read_number;
use std::alloc::Global;
use std::marker::Model;

/// The most commands that the program makes by itself.
const MOST_COUNT: u64 = 100_000;

/// A file's name. Contracts see its bytes.
#[derive(Debug, Drop)]
pub struct FileName {
    text: String,
}

impl Model for FileName {
    ghost use Rattle.std.specs.Prelude.{ℕ, List};
    ghost use Rattle.std.specs.String.{string_bytes};
    ghost use Rattle.elem_core.specs.Naming.{IsName};

    ghost Value = { List ℕ };

    ghost view = { λ it. string_bytes it.text };

    ghost invariant = { λ it. IsName (string_bytes it.text) };
}

impl FileName {
    /// The name itself.
    pub fn as_str(&self) -> &str
        ensures shown { result.now ≡ self.now }
        ensures named { IsName self.now }
    {
        &self.text
    }

    // A copy of the name. Memory where it runs out.
    fn copied(alloc: Global, name: Name<'_>) -> Result<FileName, WordsFault>
        ensures { CopiesName (name_bytes name.entry) result }
    {
        match String::from_str(alloc, name.as_str()) {
            Ok(text) => Ok(FileName { text }),
            Err(_) => Err(WordsFault::Memory),
        }
    }
}

/// What the program is asked for.
#[derive(Debug, Drop)]
pub struct Options {
    /// How many bits of a code the space keeps: at most `CODE_BITS`.
    pub bits: u32,
    /// The file of the document that the space begins with.
    pub first: Option<FileName>,
    /// The seed and the number of the commands that the program makes by itself: at most 100,000.
    pub work: Option<(u64, u32)>,
}

/// Why the words gave no options.
#[derive(Clone, Copy, Debug, PartialEq, Eq, thiserror::Error)]
pub enum WordsFault {
    /// They don't read.
    #[error("the words are none of the usage")]
    Usage,
    /// Memory ran out.
    #[error("out of memory")]
    Memory,
}

/// The options that the words ask for. `Usage` exactly where they ask for none, `Memory` where memory ran out.
pub fn read_words(alloc: Global, words: &[String]) -> Result<Options, WordsFault>
    ensures reads { ReadsWords (options (map string_bytes words.now)) result }
    ensures bounded { IfOk result AreBounded }
{
    // A hyphen alone, or two, mean something to `clap` that they don't mean here.
    if has_hyphens(words) {
        return Err(WordsFault::Usage);
    }
    let matches = match split(alloc, words) {
        Ok(matches) => matches,
        Err(error) => return Err(fault_of(error.kind())),
    };
    make_options(
        alloc,
        matches.get_str("bits"),
        matches.get_str("open"),
        matches.get_str("work"),
        matches.get_str("count"),
    )
}

// Whether one of the words is a hyphen alone, or two.
fn has_hyphens(words: &[String]) -> bool
    ensures any { result ≡ list_any is_bare (map string_bytes words.now) }
    ensures words { result ≡ false → AreWords (map string_bytes words.now) }
{
    for word in words {
        if is_hyphens(word) {
            return true;
        }
    }
    false
}

fn is_hyphens(word: &String) -> bool
    ensures bare { result ≡ is_bare (string_bytes word.now) }
    ensures word { result ≡ false → IsWord (string_bytes word.now) }
{
    let bytes = word.as_str().as_bytes();
    bytes == b"-".as_slice() || bytes == b"--".as_slice()
}

// The words as options with texts. Their values are read afterwards.
fn split<'a>(alloc: Global, words: &'a [String]) -> Result<ArgMatches<'a>, Error>
    ensures { Splits (map string_bytes words.now) result }
{
    let program = Command::new(alloc, "ewig")
        .no_binary_name(true)
        .disable_help_flag(true)
        .arg(Arg::new(alloc, "bits").long("bits"))?
        .arg(Arg::new(alloc, "open").long("open"))?
        .arg(Arg::new(alloc, "work").long("work"))?
        .arg(Arg::new(alloc, "count").long("count"))?;
    program.try_get_matches_from(words)
}

fn fault_of(kind: ErrorKind) -> WordsFault
    ensures { result ≡ fault_by kind }
{
    match kind {
        ErrorKind::OutOfMemory => WordsFault::Memory,
        _ => WordsFault::Usage,
    }
}

// The options of these texts.
fn make_options(
    alloc: Global,
    bits: Option<&str>,
    document: Option<&str>,
    work: Option<&str>,
    count: Option<&str>,
) -> Result<Options, WordsFault>
    ensures reads { ReadsWords (options_of (option_copied bits.entry) (option_copied document.entry) (option_copied work.entry) (option_copied count.entry)) result }
    ensures bounded { IfOk result AreBounded }
{
    let bits = given_number(CODE_BITS as u64, bits)?;
    let name = given_name(document)?;
    let seed = given_number(u64::MAX, work)?;
    let count = given_number(MOST_COUNT, count)?;
    let work = paired(name.is_some(), seed, count)?;
    let first = match name {
        Some(name) => Some(FileName::copied(alloc, name)?),
        None => None,
    };
    Ok(Options {
        bits: bits.unwrap_or(CODE_BITS as u64) as u32,
        first,
        work,
    })
}

// The seed and the count, which come together or not at all, and not with a document.
fn paired(
    opens: bool,
    seed: Option<u64>,
    count: Option<u64>,
) -> Result<Option<(u64, u32)>, WordsFault>
    requires { ForSome count (λ n. n ≤ most_count) }
    ensures reads { ReadsPair (pair opens seed count) result }
    ensures bound { IfOk result (λ given. ForSome given (λ work. work.1 ≤ most_count)) }
{
    let Some(seed) = seed else {
        return match count {
            Some(_) => Err(WordsFault::Usage),
            None => Ok(None),
        };
    };
    let Some(count) = count else {
        return Err(WordsFault::Usage);
    };
    if opens {
        Err(WordsFault::Usage)
    } else {
        Ok(Some((seed, count as u32)))
    }
}

// The number from 0 to `most` that the text writes, where one is given.
fn given_number(most: u64, text: Option<&str>) -> Result<Option<u64>, WordsFault>
    ensures reads { ReadsNumber (if_given (number_to most) (option_copied text.entry)) result }
    ensures bound { IfOk result (λ given. ForSome given (λ n. n ≤ most)) }
{
    let Some(text) = text else {
        return Ok(None);
    };
    match read_number(text, most) {
        Some(number) => Ok(Some(number)),
        None => Err(WordsFault::Usage),
    }
}

// The name that the text is, where one is given.
fn given_name(text: Option<&str>) -> Result<Option<Name<'_>>, WordsFault>
    ensures { ReadsName (if_given name_in (option_copied text.entry)) result }
{
    let Some(text) = text else {
        return Ok(None);
    };
    match Name::new(text) {
        Some(name) => Ok(Some(name)),
        None => Err(WordsFault::Usage),
    }
}
