//! What is sent: replies that are ready, and lines of a reply one after another.

ghost use Rattle.std.specs.Prelude.{◌≡◌, ℕ, List, [], ◌∷◌, ◌++◌, map as each, Err};
ghost use Rattle.plain_space.specs.Answer.{ok_line, text_line, number_line, size_line};
ghost use Rattle.plain_space.specs.Session.{reason_of};
ghost use Rattle.shell_io.specs.Sending.{Sends};
ghost use Rattle.ewig_shell.specs.Sending.{Puts};
ghost use Rattle.ewig_shell.specs.Work.{summary};
ghost use Rattle.ewig_shell.specs.Step.{reply_of, refusal_of, done_reply, equality_reply, stored_reply, line_reason};

use crate::page::Page;
use crate::store_fault::StoreFault;
use crate::work::Summary;
use elem_core::Text;
use itoa::Buffer;
use pool_text::Damage;
use shell_io::{Failed, Sink, write_all};
use shell_words::BadLine;
use space_state::{Refusal, SpaceLines};

/// The reply to a line that is no command.
pub fn line_refusal(bad: BadLine) -> &'static [u8]
    ensures { result.now ≡ refusal_of (line_reason bad) }
{
    match bad {
        BadLine::Utf8 => b"! utf8\n",
        BadLine::Command => b"! command\n",
        BadLine::Name => b"! name\n",
    }
}

/// The reply to a command that is refused.
pub fn refusal(reason: Refusal) -> &'static [u8]
    ensures { result.now ≡ refusal_of (reason_of reason) }
{
    match reason {
        Refusal::Absent => b"! none\n",
        Refusal::Exists => b"! exists\n",
        Refusal::Range => b"! range\n",
        Refusal::Limit => b"! limit\n",
        Refusal::Batch => b"! batch\n",
        Refusal::Empty => b"! empty\n",
        Refusal::Memory => b"! memory\n",
    }
}

/// The reply to a question of equality.
pub fn equality(answer: Result<bool, Refusal>) -> &'static [u8]
    ensures { result.now ≡ equality_reply answer }
{
    match answer {
        Ok(true) => b"= yes\n",
        Ok(false) => b"= no\n",
        Err(reason) => refusal(reason),
    }
}

// The reply to a command that uses the store.
fn stored(done: Result<(), StoreFault>) -> &'static [u8]
    ensures { result.now ≡ stored_reply done }
{
    match done {
        Ok(()) => b"ok\n",
        Err(StoreFault::Batch) => b"! batch\n",
        Err(StoreFault::Absent) => b"! none\n",
        Err(StoreFault::Range) => b"! range\n",
        Err(StoreFault::Limit) => b"! limit\n",
        Err(StoreFault::Missing) => b"! missing\n",
        Err(StoreFault::Large) => b"! large\n",
        Err(StoreFault::Failed) => b"! fault\n",
        Err(StoreFault::Damaged(damage)) => damaged(damage),
        Err(StoreFault::Long) => b"! long\n",
        Err(StoreFault::Utf8) => b"! utf8\n",
        Err(StoreFault::Memory) => b"! memory\n",
    }
}

// The reply where a document fails this test.
fn damaged(damage: Damage) -> &'static [u8]
    ensures { result.now ≡ stored_reply (Err (StoreFault.Damaged damage)) }
{
    match damage {
        Damage::Json => b"! damaged json\n",
        Damage::Form => b"! damaged form\n",
        Damage::Version => b"! damaged version\n",
        Damage::Bits => b"! damaged bits\n",
        Damage::Row => b"! damaged row\n",
        Damage::Link => b"! damaged link\n",
        Damage::Text => b"! damaged text\n",
        Damage::Vector => b"! damaged vector\n",
        Damage::Trie => b"! damaged trie\n",
        Damage::Kind => b"! damaged kind\n",
        Damage::Order => b"! damaged order\n",
        Damage::Memory => b"! damaged memory\n",
    }
}

/// Replies to a command that was carried out, or refused.
pub fn send_done<K: Sink>(done: Result<(), Refusal>, sink: &mut K) -> Result<(), Failed>
    ensures { Sends K.written K.faults K.steady K.has_room sink.old sink.new result (done_reply done) }
{
    match done {
        Ok(()) => write_all(sink, b"ok\n"),
        Err(reason) => write_all(sink, refusal(reason)),
    }
}

/// Replies to a command that uses the store.
pub fn send_stored<K: Sink>(done: Result<(), StoreFault>, sink: &mut K) -> Result<(), Failed>
    ensures { Sends K.written K.faults K.steady K.has_room sink.old sink.new result (stored_reply done) }
{
    write_all(sink, stored(done))
}

/// Sends a line that shows the text.
pub fn send_text<K: Sink>(text: &Text, page: &mut Page, sink: &mut K) -> Result<(), Failed>
    ensures { Sends K.written K.faults K.steady K.has_room sink.old sink.new result (reply_of (text_line text.now ∷ [])) }
{
    page.clear();
    page.put_text(text, sink)?;
    page.flush(sink)
}

/// Sends a line that shows the number.
pub fn send_number<K: Sink>(number: u64, page: &mut Page, sink: &mut K) -> Result<(), Failed>
    ensures { Sends K.written K.faults K.steady K.has_room sink.old sink.new result (reply_of (number_line number ∷ [])) }
{
    let mut digits = Buffer::new();
    page.clear();
    page.put("= ", sink)?;
    page.put(digits.format(number), sink)?;
    page.put("\n", sink)?;
    page.flush(sink)
}

/// What one line of a reply shows.
pub trait Shown {
    // The line.
    ghost line: { Self → List ℕ };

    /// Puts the line at the end of the page.
    fn put<K: Sink>(&self, page: &mut Page, sink: &mut K) -> Result<(), Failed>
        ensures { Puts K.Sink sink.old page.old sink.new page.new result (reply_of (line self.now ∷ [])) };
}

impl Shown for &Text {
    ghost line = { λ name. text_line name.now };

    fn put<K: Sink>(&self, page: &mut Page, sink: &mut K) -> Result<(), Failed> {
        page.put_text(self, sink)
    }
}

impl Shown for (&Text, u32) {
    ghost line = { λ size. size_line (size.0.now, size.1) };

    fn put<K: Sink>(&self, page: &mut Page, sink: &mut K) -> Result<(), Failed> {
        page.put_count(self.0.text(), u128::from(self.1), sink)
    }
}

impl Shown for (&str, u128) {
    ghost line = { λ size. size_line (size.0.now, size.1) };

    fn put<K: Sink>(&self, page: &mut Page, sink: &mut K) -> Result<(), Failed> {
        page.put_count(self.0, self.1, sink)
    }
}

/// Sends a line for each of them, then `ok`.
pub fn send_each<T: Shown, K: Sink>(
    shown: &[T],
    page: &mut Page,
    sink: &mut K,
) -> Result<(), Failed>
    ensures { Sends K.written K.faults K.steady K.has_room sink.old sink.new result
        (reply_of (each T.line shown.now ++ ok_line ∷ [])) }
{
    page.clear();
    for item in shown {
        item.put(page, sink)?;
    }
    page.put("ok\n", sink)?;
    page.flush(sink)
}

/// Sends a line for each number of the summary, then `ok`.
pub fn send_summary<K: Sink>(sums: &Summary, sink: &mut K) -> Result<(), Failed>
    ensures { Sends K.written K.faults K.steady K.has_room sink.old sink.new result
        (summary sums.now.commands sums.now.ok sums.now.refused sums.now.buffers sums.now.lines) }
{
    let counts = [
        ("commands", sums.commands as u128),
        ("ok", sums.ok as u128),
        ("refused", sums.refused as u128),
        ("names", sums.buffers as u128),
        ("lines", sums.lines),
    ];
    send_each(&counts, &mut Page::new(), sink)
}

/// Sends a line for each text, then `ok`.
pub fn send_lines<K: Sink>(
    lines: SpaceLines<'_>,
    page: &mut Page,
    sink: &mut K,
) -> Result<(), Failed>
    ensures { Sends K.written K.faults K.steady K.has_room sink.old sink.new result
        (reply_of (each text_line lines.entry ++ ok_line ∷ [])) }
{
    page.clear();
    for line in lines {
        page.put_text(line, sink)?;
    }
    page.put("ok\n", sink)?;
    page.flush(sink)
}
