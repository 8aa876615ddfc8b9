//! What changes a state.

use elem_core::{Line, Name};

/// An edit of the current state, with its names, numbers and texts in the order of the command's words.
/// Lines are counted from 0, and a range ends before its second number.
#[derive(Clone, Copy, Debug, PartialEq, Eq)]
pub enum Edit<'a> {
    /// Makes the buffer, without lines.
    New(Name<'a>),
    /// Adds the line at the end of the buffer.
    Add(Name<'a>, Line<'a>),
    /// Replaces the line of the buffer at the index.
    Set(Name<'a>, u32, Line<'a>),
    /// Puts the line before the one at the index, or at the end where the index is the buffer's length.
    Put(Name<'a>, u32, Line<'a>),
    /// Takes the lines of the range out of the buffer.
    Del(Name<'a>, u32, u32),
    /// Adds the lines of the second buffer at the end of the first.
    Cat(Name<'a>, Name<'a>),
    /// Takes the lines of the range out of the first buffer; the second is these lines, made or replaced.
    Cut(Name<'a>, u32, u32, Name<'a>),
    /// Gives the second buffer the lines of the first, made or replaced.
    Copy(Name<'a>, Name<'a>),
    /// Takes the buffer away.
    Drop(Name<'a>),
    /// Stars the name, which needs no buffer.
    Star(Name<'a>),
    /// Takes the star of the name away.
    Unstar(Name<'a>),
    /// Adds the stars of the version.
    StarMerge(Name<'a>),
    /// Leaves the stars that the version has too.
    StarBoth(Name<'a>),
    /// Leaves the stars that the version hasn't.
    StarLess(Name<'a>),
    /// Adds the buffers of the version that have other names.
    Merge(Name<'a>),
}
