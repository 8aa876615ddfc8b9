//! How a value crosses.
ghost use Rattle.std.specs.Prelude.{◌≡◌, IsTrue, MatchOption, MatchResult};
ghost use Rattle.elem_core.specs.Shown.{line_bytes};
ghost use Rattle.total_versions.specs.declared.answers.Refusal.TheVariants.{NotText};
ghost use Rattle.versions_c.specs.Values.{IsText, IsGiven, given, given_value, value_bytes, form_of, laid};
ghost use Rattle.total_versions.specs.Answers.{lent};
ghost use Rattle.versions_c.specs.Crossing.{Taken, TakenPair, code_of, shown_or};

use crate::value::{Value, Word};
use elem_core::{Code, Line, Probe, fnv64};
use std::alloc::Global;
use std::cmp::Ordering;
use std::str;
use total_versions::Refusal;

/// A value but for the bytes of a text, which stand beside it: the number, or the length of the text. Of a text that is passed,
/// all bytes beside it are the text.
#[repr(C)]
#[derive(Clone, Copy)]
pub struct Form {
    /// Whether it is a text.
    pub is_text: bool,
    /// The number, or how many bytes the text has.
    pub number: u64,
}

impl Form {
    // The form of a value.
    pub(crate) fn of(value: &Value) -> Form
        ensures { result ≡ form_of value.now }
    {
        match value {
            Value::Number(number) => Form {
                is_text: false,
                number: *number,
            },
            Value::Text(word) => Form {
                is_text: true,
                number: word.text().len() as u64,
            },
        }
    }
}

// A value that a caller passed, and keeps.
#[derive(Clone, Copy)]
pub(crate) enum Given<'a> {
    Number(u64),
    Text(Line<'a>),
}

impl<'a> Given<'a> {
    // The value of this form with these bytes. Refused exactly where they are to be a text, and aren't.
    pub(crate) fn of(form: Form, bytes: &'a [u8]) -> Result<Given<'a>, Refusal>
        ensures { MatchResult result (λ g. IsGiven form bytes.now × (given_value g ≡ given form bytes.now)) (λ r. (r ≡ NotText) × (IsGiven form bytes.now → ⊥)) }
    {
        if !form.is_text {
            return Ok(Given::Number(form.number));
        }
        match line_of(bytes) {
            Some(line) => Ok(Given::Text(line)),
            None => Err(Refusal::NotText),
        }
    }
}

impl Probe<Value> for Given<'_> {
    ghost use Rattle.versions_c.specs.Values.{given_value};

    ghost stands_for = { given_value };

    fn code(&self) -> Code {
        match self {
            Given::Number(number) => *number,
            Given::Text(line) => fnv64(line.as_str().as_bytes()),
        }
    }

    fn order(&self, other: &Value) -> Ordering {
        match (self, other) {
            (Given::Number(number), Value::Number(other)) => number.cmp(other),
            (Given::Number(_), Value::Text(_)) => Ordering::Less,
            (Given::Text(_), Value::Number(_)) => Ordering::Greater,
            (Given::Text(line), Value::Text(word)) => line.as_str().cmp(word.text()),
        }
    }
}

// The bytes as a line, None exactly where they are no text of a cell.
fn line_of(bytes: &[u8]) -> Option<Line<'_>>
    ensures { MatchOption result (IsText bytes.now → ⊥) (λ line. IsText bytes.now × (line_bytes line ≡ bytes.now)) }
{
    match str::from_utf8(bytes) {
        Ok(text) => Line::new(text),
        Err(_) => None,
    }
}

// A copy of the value of this form with these bytes. Refused where they are to be a text, and aren't, or where memory runs out.
#[inline]
pub(crate) fn taken(alloc: Global, form: Form, bytes: &[u8]) -> Result<Value, Refusal>
    ensures { Taken form bytes.now result }
{
    if !form.is_text {
        return Ok(Value::Number(form.number));
    }
    taken_text(alloc, form, bytes)
}

// The same of a text. It is apart from what takes a number, which is a few steps in each call.
#[inline(never)]
fn taken_text(alloc: Global, form: Form, bytes: &[u8]) -> Result<Value, Refusal>
    requires { IsTrue form.is_text }
    ensures { Taken form bytes.now result }
{
    let Some(line) = line_of(bytes) else {
        return Err(Refusal::NotText);
    };
    match Word::of(alloc, line) {
        Ok(word) => Ok(Value::Text(word)),
        Err(_) => Err(Refusal::Memory),
    }
}

// The same of two values, of which the first is looked at first.
pub(crate) fn taken_pair(
    alloc: Global,
    form: Form,
    bytes: &[u8],
    second_form: Form,
    second_bytes: &[u8],
) -> Result<(Value, Value), Refusal>
    ensures { TakenPair form bytes.now second_form second_bytes.now result }
{
    let first = taken(alloc, form, bytes)?;
    let second = taken(alloc, second_form, second_bytes)?;
    Ok((first, second))
}

// Writes the bytes to the begin of the room, where they fit.
fn lay(bytes: &[u8], room: &mut [u8])
    ensures { room.new ≡ laid room.old bytes.now }
{
    if bytes.len() <= room.len() {
        room[..bytes.len()].copy_from_slice(bytes);
    }
}

// Shows the value that was answered: its form, and in the room its bytes, where they fit. The number of the answer is 0 where
// one was.
pub(crate) fn shown(answer: Result<&Value, Refusal>, form: &mut Form, room: &mut [u8]) -> u32
    ensures code { result ≡ code_of (lent answer.entry) }
    ensures put { (form.new, room.new) ≡ shown_or (form.old, room.old) (lent answer.entry) }
{
    match answer {
        Ok(Value::Number(number)) => {
            let number = *number;
            *form = Form {
                is_text: false,
                number,
            };
            0
        }
        Ok(value) => {
            *form = Form::of(value);
            lay(bytes_of(value), room);
            0
        }
        Err(refusal) => refusal.code(),
    }
}

// The bytes of a text, and none of a number.
pub(crate) fn bytes_of(value: &Value) -> &[u8]
    ensures { result.now ≡ value_bytes value.now }
{
    match value {
        Value::Number(_) => &[],
        Value::Text(word) => word.text().as_bytes(),
    }
}
