//! A line in a buffer of fixed size, which the next line is made in again.

ghost use Rattle.std.specs.Prelude.{◌≡◌, ℕ, ◌+◌, ◌^◌, ◌<◌, ◌≤◌, List, [], ◌++◌, length};
ghost use Rattle.std.specs.Fmt.{decimal};
ghost use Rattle.work_lines.specs.Lines.{line_of, line_by, new_line};

use arrayvec::ArrayVec;
use itoa::Buffer;

// The most bytes of a word and the number behind it: 6 and 20.
const PART: usize = 26;

// The most bytes of a line, which has at most three such parts.
const LONGEST: usize = 3 * PART;

#[derive(Drop)]
pub(crate) struct MadeLine {
    bytes: ArrayVec<u8, LONGEST>,
}

impl MadeLine {
    // An empty line.
    pub(crate) fn new() -> MadeLine
        ensures { result.bytes.items ≡ [] }
    {
        MadeLine {
            bytes: ArrayVec::new(),
        }
    }

    // Its bytes.
    pub(crate) fn as_bytes(&self) -> &[u8]
        ensures { result.now ≡ self.now.bytes.items }
    {
        self.bytes.as_slice()
    }

    // Makes it the line that makes a buffer.
    pub(crate) fn make_new(&mut self, buffer: u64)
        ensures { self.new.bytes.items ≡ new_line buffer }
    {
        self.bytes.clear();
        self.put(b"new w", buffer);
    }

    // Makes it the line of the number.
    pub(crate) fn make(&mut self, number: u64)
        ensures { self.new.bytes.items ≡ line_of number }
    {
        self.make_by(
            number >> 60,
            (number >> 57) % 8,
            (number >> 54) % 8,
            (number >> 32) % 4_194_304,
        )
    }

    // Makes it the line of a kind, two buffers and a size.
    #[tactic(auto, unfolding(crate::specs::Lines::line_by))]
    fn make_by(&mut self, kind: u64, a: u64, b: u64, n: u64)
        requires { n < 2 ^ 22 }
        ensures { self.new.bytes.items ≡ line_by kind a b n }
    {
        self.bytes.clear();
        match kind {
            0..=6 => {
                self.put(b"add w", a);
                self.put(b" t", n);
            }
            7 | 8 => {
                self.put(b"set w", a);
                self.put(b" ", n % 256);
                self.put(b" t", n);
            }
            9 => {
                self.put(b"put w", a);
                self.put(b" ", n % 256);
                self.put(b" t", n);
            }
            10 => {
                self.put(b"del w", a);
                self.put(b" ", n % 16);
                self.put(b" ", n % 16 + n / 16 % 16);
            }
            11 => {
                self.put(b"copy w", a);
                self.put(b" w", b);
            }
            12 => self.put_word(b"undo"),
            13 => self.put_word(b"redo"),
            14 => {
                self.put(b"cat w", a);
                self.put(b" w", b);
            }
            _ => self.put(b"mark v", n),
        }
    }

    // Puts bytes at the end.
    fn put_word(&mut self, word: &[u8])
        requires { length self.old.bytes.items + length word.now ≤ LONGEST }
        ensures { self.new.bytes.items ≡ self.old.bytes.items ++ word.now }
    {
        self.bytes.try_extend_from_slice(word).unwrap();
    }

    // Puts bytes and a number at the end.
    fn put(&mut self, word: &[u8], number: u64)
        requires small { length word.now ≤ 6 }
        requires room { length self.old.bytes.items + PART ≤ LONGEST }
        ensures put { self.new.bytes.items ≡ self.old.bytes.items ++ word.now ++ decimal number }
        ensures grown { length self.new.bytes.items ≤ length self.old.bytes.items + PART }
    {
        let mut digits = Buffer::new();
        self.put_word(word);
        self.put_word(digits.format(number).as_bytes());
    }
}
