//! The lines that the program makes by itself, from a seed: commands for a space that is tried out.
#![tactic(auto)]

ghost use Rattle.std.specs.Prelude.{◌≡◌, ℕ, [], ◌∷◌, true, false, MatchBool};
ghost use Rattle.work_lines.specs.Lines.{next_number, work_lines};
ghost use Rattle.work_lines.specs.Commands.{ChangesSpace};

mod laws;
mod line;

pub use laws::{lines_are_commands, worked};
use line::MadeLine;
use std::marker::Model;

/// Makes the lines of a seed, one after another. Contracts see the line that was made last and the lines to come.
#[derive(Drop)]
pub struct WorkLines {
    // The number that the last line was made of, at first the seed.
    number: u64,
    // How many of eight buffers aren't made yet, and how many lines are to come after these.
    buffers: u64,
    count: u32,
    line: MadeLine,
}

impl Model for WorkLines {
    ghost use Rattle.std.specs.Prelude.{ℕ, ◌≤◌, ◌++◌};
    ghost use Rattle.work_lines.specs.Lines.{lines_from};
    ghost use Rattle.work_lines.specs.View.{WorkView, last_new_lines};

    ghost Value = { WorkView };

    ghost view = { λ it. record {
      line = it.line.bytes.items;
      left = last_new_lines it.buffers ++ lines_from it.count it.number;
    } };

    ghost invariant = { λ it. it.buffers ≤ 8 };
}

impl WorkLines {
    /// Before the first of the lines of the seed: eight that make buffers, and so many more.
    pub fn new(seed: u64, count: u32) -> WorkLines
        ensures empty { result.line ≡ [] }
        ensures all { result.left ≡ work_lines seed count }
    {
        WorkLines {
            number: seed,
            buffers: 8,
            count,
            line: MadeLine::new(),
        }
    }

    /// Makes the next line; false where there is none.
    pub fn next(&mut self) -> bool
        ensures made { MatchBool result (self.old.left ≡ self.new.line ∷ self.new.left) (self.old.left ≡ []) }
        ensures ended { result ≡ false → self.new ≡ self.old }
        ensures changes { result ≡ true → ChangesSpace self.new.line }
    {
        if self.buffers > 0 {
            self.buffers -= 1;
            self.line.make_new(7 - self.buffers);
            true
        } else if self.count > 0 {
            self.count -= 1;
            self.number = next_number(self.number);
            self.line.make(self.number);
            true
        } else {
            false
        }
    }

    /// The line that was made last.
    pub fn line(&self) -> &[u8]
        ensures { result.now ≡ self.now.line }
    {
        self.line.as_bytes()
    }
}

// The number that follows another.
#[tactic(auto, unfolding(crate::specs::Lines::next_number))]
fn next_number(number: u64) -> u64
    ensures { result ≡ next_number number }
{
    number
        .wrapping_mul(6_364_136_223_846_793_005)
        .wrapping_add(1_442_695_040_888_963_407)
}
