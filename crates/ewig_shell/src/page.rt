//! The buffer in which a reply is put together.

ghost use Rattle.std.specs.Prelude.{◌≡◌, [], ◌∷◌};
ghost use Rattle.plain_space.specs.Answer.{text_line, size_line};
ghost use Rattle.shell_io.specs.Sending.{Sends};
ghost use Rattle.ewig_shell.specs.Sending.{Puts};
ghost use Rattle.ewig_shell.specs.Step.{reply_of};

use arrayvec::ArrayString;
use elem_core::Text;
use itoa::Buffer;
use shell_io::{Failed, Sink, write_all};
use std::marker::Model;

/// How many bytes a page has room for.
pub const PAGE: usize = 16_384;

/// A text of limited size, so that a short reply goes out in one piece, and a long one in few, with no memory taken. A run has one
/// page, since making one clears its room. Contracts see its bytes.
#[derive(Drop)]
pub struct Page {
    text: ArrayString<PAGE>,
}

impl Model for Page {
    ghost use Rattle.std.specs.Prelude.{ℕ, List};

    ghost Value = { List ℕ };

    ghost view = { λ it. it.text.bytes };
}

impl Page {
    /// An empty page.
    pub fn new() -> Page
        ensures { result ≡ [] }
    {
        Page {
            text: ArrayString::new(),
        }
    }

    /// Lets go of its bytes, whatever they are.
    pub fn clear(&mut self)
        ensures { self.new ≡ [] }
    {
        self.text.clear();
    }

    /// Sends all bytes, and is empty then.
    pub fn flush<K: Sink>(&mut self, sink: &mut K) -> Result<(), Failed>
        ensures sends { Sends K.written K.faults K.steady K.has_room sink.old sink.new result self.old }
        ensures empty { self.new ≡ [] }
    {
        let sent = write_all(sink, self.text.as_str().as_bytes());
        self.text.clear();
        sent
    }

    /// Puts the text at the end. What stands before it is sent where it doesn't fit, and it is where a page has no room for it.
    pub fn put<K: Sink>(&mut self, text: &str, sink: &mut K) -> Result<(), Failed>
        ensures { Puts K.Sink sink.old self.old sink.new self.new result text.now }
    {
        if text.len() <= self.text.remaining_capacity() {
            self.text.push_str(text);
            return Ok(());
        }
        self.flush(sink)?;
        if text.len() <= self.text.remaining_capacity() {
            self.text.push_str(text);
            return Ok(());
        }
        write_all(sink, text.as_bytes())
    }

    /// Puts a line that shows the text.
    pub fn put_text<K: Sink>(&mut self, text: &Text, sink: &mut K) -> Result<(), Failed>
        ensures { Puts K.Sink sink.old self.old sink.new self.new result (reply_of (text_line text.now ∷ [])) }
    {
        let shown = text.text();
        let room = self.text.remaining_capacity();
        // Most lines are put by this one test of room.
        if shown.len() + 2 < room {
            self.text.push_str("= ");
            self.text.push_str(shown);
            self.text.push_str("\n");
            return Ok(());
        }
        self.put_in_parts(shown, sink)
    }

    // The same of its text, where the page has no room for the line: apart, so that the other lines are put where they are shown.
    #[inline(never)]
    fn put_in_parts<K: Sink>(&mut self, shown: &str, sink: &mut K) -> Result<(), Failed>
        ensures { Puts K.Sink sink.old self.old sink.new self.new result (reply_of (text_line shown.now ∷ [])) }
    {
        self.put("= ", sink)?;
        self.put(shown, sink)?;
        self.put("\n", sink)
    }

    /// Puts a line that shows a word and a number.
    pub fn put_count<K: Sink>(
        &mut self,
        word: &str,
        number: u128,
        sink: &mut K,
    ) -> Result<(), Failed>
        ensures { Puts K.Sink sink.old self.old sink.new self.new result (reply_of (size_line (word.now, number) ∷ [])) }
    {
        let mut digits = Buffer::new();
        self.put("= ", sink)?;
        self.put(word, sink)?;
        self.put(" ", sink)?;
        self.put(digits.format(number), sink)?;
        self.put("\n", sink)
    }
}
