//! One line of the input: the command is done, and its reply is written.

ghost use Rattle.std.specs.Prelude.{◌≡◌, ◌↔◌, codes, IfOk, IsTrue};
ghost use Rattle.elem_core.specs.Cell.{IsCell};
ghost use Rattle.elem_core.specs.Shown.{name_bytes};
ghost use Rattle.shell_terms.specs.Command.{get as get_command, len as len_command, show as show_command, list as list_command, stars as stars_command, marks as marks_command, same as same_command, eqv as eqv_command, stats as stats_command, made as made_command, quit as quit_command};
ghost use Rattle.shell_words.specs.Shown.{plain_command};
ghost use Rattle.shell_io.specs.Sending.{Sends};
ghost use Rattle.ewig_shell.specs.Quits.{is_quit};
ghost use Rattle.ewig_shell.specs.Step.{ObeysAlone, ObeysOn, StepsOn, refusal_of};
ghost use Rattle.ewig_shell.specs.Sending.{Replies, sent_then};

use crate::chained::{chain, part};
use crate::load::{load, read};
use crate::mapped::{dedent, indent};
use crate::page::Page;
use crate::reply::{
    equality, line_refusal, refusal, send_done, send_each, send_lines, send_number, send_stored,
    send_text,
};
use crate::save::{save, write};
use elem_core::Name;
use shell_io::{Failed, Sink, Store, write_all};
use shell_words::{Command, read_line};
use space_state::{Refusal, Space};
use std::alloc::Global;

/// Whether more lines are to be read.
#[derive(Clone, Copy, Debug, PartialEq, Eq)]
pub enum Went {
    /// They are.
    On,
    /// The line was `quit`, and its reply was written.
    Quit,
}

/// Does what a line asks for, and writes the reply.
/// At `Failed` only a part of the reply was written, and the space and the store are as after the command.
pub fn execute<K: Sink, D: Store>(
    alloc: Global,
    space: &mut Space,
    piece: &[u8],
    sink: &mut K,
    store: &mut D,
) -> Result<Went, Failed>
    requires { IsCell piece.now }
    ensures replies { Replies K.Sink sink.old sink.new result
        (λ reply. StepsOn piece.now D.Store space.old store.old reply space.new store.new) }
    ensures bits { space.new.pool.bits ≡ space.old.pool.bits }
    ensures quits { IfOk result (λ went. (went ≡ Went.Quit) ↔ IsTrue (is_quit piece.now)) }
{
    execute_on(alloc, space, piece, &mut Page::new(), sink, store)
}

/// The same with a page of the caller, in which the reply is put together, whatever it holds: a run has one for all its lines.
pub(crate) fn execute_on<K: Sink, D: Store>(
    alloc: Global,
    space: &mut Space,
    piece: &[u8],
    page: &mut Page,
    sink: &mut K,
    store: &mut D,
) -> Result<Went, Failed>
    requires { IsCell piece.now }
    ensures replies { Replies K.Sink sink.old sink.new result
        (λ reply. StepsOn piece.now D.Store space.old store.old reply space.new store.new) }
    ensures bits { space.new.pool.bits ≡ space.old.pool.bits }
    ensures quits { IfOk result (λ went. (went ≡ Went.Quit) ↔ IsTrue (is_quit piece.now)) }
{
    match read_line(piece) {
        Ok(command) => obey(alloc, space, command, page, sink, store),
        Err(bad) => then(write_all(sink, line_refusal(bad)), Went::On),
    }
}

/// Replies to a piece that is too long to be a line.
pub fn refuse_long<K: Sink>(sink: &mut K) -> Result<Went, Failed>
    ensures sends { Sends K.written K.faults K.steady K.has_room sink.old sink.new result
        (refusal_of (codes "long")) }
    ensures on { IfOk result (λ went. went ≡ Went.On) }
{
    then(write_all(sink, b"! long\n"), Went::On)
}

// Does a command, writes the reply, and says how the run goes on.
fn obey<K: Sink, D: Store>(
    alloc: Global,
    space: &mut Space,
    command: Command<'_>,
    page: &mut Page,
    sink: &mut K,
    store: &mut D,
) -> Result<Went, Failed>
    ensures replies { Replies K.Sink sink.old sink.new result
        (λ reply. ObeysOn (plain_command command.entry) D.Store space.old store.old reply space.new store.new) }
    ensures quits { IfOk result (λ went.
        (went ≡ Went.Quit) ↔ (plain_command command.entry ≡ quit_command)) }
{
    let went = went_after(command);
    then(answer(alloc, space, command, page, sink, store), went)
}

// How the run goes on after a command.
fn went_after(command: Command<'_>) -> Went
    ensures { (result ≡ Went.Quit) ↔ (plain_command command.entry ≡ quit_command) }
{
    match command {
        Command::Quit => Went::Quit,
        _ => Went::On,
    }
}

// How the run goes on where the reply was sent.
fn then(sent: Result<(), Failed>, went: Went) -> Result<Went, Failed>
    ensures { result ≡ sent_then sent went }
{
    sent.map(|()| went)
}

// Does a command, and writes the reply.
fn answer<K: Sink, D: Store>(
    alloc: Global,
    space: &mut Space,
    command: Command<'_>,
    page: &mut Page,
    sink: &mut K,
    store: &mut D,
) -> Result<(), Failed>
    ensures { Replies K.Sink sink.old sink.new result
        (λ reply. ObeysOn (plain_command command.entry) D.Store space.old store.old reply space.new store.new) }
{
    match command {
        Command::Edit(edit) => send_done(space.edit(edit), sink),
        Command::Mark(version) => send_done(space.mark(version), sink),
        Command::Unmark(version) => send_done(space.unmark(version), sink),
        Command::Back(version) => send_done(space.back(version), sink),
        Command::Undo => send_done(space.undo(), sink),
        Command::Redo => send_done(space.redo(), sink),
        Command::Begin => send_done(space.begin(), sink),
        Command::End => send_done(space.end(), sink),
        Command::Abort => send_done(space.abort(), sink),
        Command::History(count) => send_done(space.history(count), sink),
        Command::Get(buffer, index) => get(space, buffer, index, page, sink),
        Command::Len(buffer) => len(space, buffer, page, sink),
        Command::Show(buffer, from, to) => show(space, buffer, from, to, page, sink),
        Command::List => list(alloc, space, page, sink),
        Command::Stars => stars(alloc, space, page, sink),
        Command::Marks => marks(alloc, space, page, sink),
        Command::Same(buffer, other) => same(space, buffer, other, sink),
        Command::Eqv(version, other) => eqv(space, version, other, sink),
        Command::Stats => stats(space, page, sink),
        Command::Made => made(space, page, sink),
        Command::Read(buffer, file) => send_stored(read(alloc, space, buffer, file, store), sink),
        Command::Write(buffer, file) => send_stored(write(alloc, space, buffer, file, store), sink),
        Command::Save(file) => send_stored(save(alloc, space, file, store), sink),
        Command::Load(file) => send_stored(load(alloc, space, file, store), sink),
        Command::Part(file, number) => send_stored(part(alloc, space, file, number, store), sink),
        Command::Chain(file, number) => send_stored(chain(alloc, space, file, number, store), sink),
        Command::Indent(count, file) => send_stored(indent(alloc, space, count, file, store), sink),
        Command::Dedent(count, file) => send_stored(dedent(alloc, space, count, file, store), sink),
        Command::Quit => quit(space, sink),
    }
}

fn get<K: Sink>(
    space: &Space,
    buffer: Name<'_>,
    index: u32,
    page: &mut Page,
    sink: &mut K,
) -> Result<(), Failed>
    ensures { Replies K.Sink sink.old sink.new result
        (λ reply. ObeysAlone (get_command (name_bytes buffer.entry) index) space.now reply space.now) }
{
    match space.line(buffer, index) {
        Ok(text) => send_text(text, page, sink),
        Err(reason) => write_all(sink, refusal(reason)),
    }
}

fn len<K: Sink>(
    space: &Space,
    buffer: Name<'_>,
    page: &mut Page,
    sink: &mut K,
) -> Result<(), Failed>
    ensures { Replies K.Sink sink.old sink.new result
        (λ reply. ObeysAlone (len_command (name_bytes buffer.entry)) space.now reply space.now) }
{
    match space.count(buffer) {
        Ok(count) => send_number(count as u64, page, sink),
        Err(reason) => write_all(sink, refusal(reason)),
    }
}

fn show<K: Sink>(
    space: &Space,
    buffer: Name<'_>,
    from: u32,
    to: u32,
    page: &mut Page,
    sink: &mut K,
) -> Result<(), Failed>
    ensures { Replies K.Sink sink.old sink.new result
        (λ reply. ObeysAlone (show_command (name_bytes buffer.entry) from to) space.now reply space.now) }
{
    match space.lines(buffer, from, to) {
        Ok(lines) => send_lines(lines, page, sink),
        Err(reason) => write_all(sink, refusal(reason)),
    }
}

fn list<K: Sink>(alloc: Global, space: &Space, page: &mut Page, sink: &mut K) -> Result<(), Failed>
    ensures { Replies K.Sink sink.old sink.new result
        (λ reply. ObeysAlone list_command space.now reply space.now) }
{
    match space.names(alloc) {
        Ok(sizes) => send_each(&sizes, page, sink),
        Err(_) => write_all(sink, refusal(Refusal::Memory)),
    }
}

fn stars<K: Sink>(alloc: Global, space: &Space, page: &mut Page, sink: &mut K) -> Result<(), Failed>
    ensures { Replies K.Sink sink.old sink.new result
        (λ reply. ObeysAlone stars_command space.now reply space.now) }
{
    match space.stars(alloc) {
        Ok(names) => send_each(&names, page, sink),
        Err(_) => write_all(sink, refusal(Refusal::Memory)),
    }
}

fn marks<K: Sink>(alloc: Global, space: &Space, page: &mut Page, sink: &mut K) -> Result<(), Failed>
    ensures { Replies K.Sink sink.old sink.new result
        (λ reply. ObeysAlone marks_command space.now reply space.now) }
{
    match space.marks(alloc) {
        Ok(names) => send_each(&names, page, sink),
        Err(_) => write_all(sink, refusal(Refusal::Memory)),
    }
}

fn same<K: Sink>(
    space: &Space,
    buffer: Name<'_>,
    other: Name<'_>,
    sink: &mut K,
) -> Result<(), Failed>
    ensures { Replies K.Sink sink.old sink.new result
        (λ reply. ObeysAlone (same_command (name_bytes buffer.entry) (name_bytes other.entry)) space.now reply space.now) }
{
    write_all(sink, equality(space.same(buffer, other)))
}

fn eqv<K: Sink>(
    space: &Space,
    version: Name<'_>,
    other: Name<'_>,
    sink: &mut K,
) -> Result<(), Failed>
    ensures { Replies K.Sink sink.old sink.new result
        (λ reply. ObeysAlone (eqv_command (name_bytes version.entry) (name_bytes other.entry)) space.now reply space.now) }
{
    write_all(sink, equality(space.eqv(version, other)))
}

fn stats<K: Sink>(space: &Space, page: &mut Page, sink: &mut K) -> Result<(), Failed>
    ensures { Replies K.Sink sink.old sink.new result
        (λ reply. ObeysAlone stats_command space.now reply space.now) }
{
    send_number(space.rows() as u64, page, sink)
}

fn made<K: Sink>(space: &Space, page: &mut Page, sink: &mut K) -> Result<(), Failed>
    ensures { Replies K.Sink sink.old sink.new result
        (λ reply. ObeysAlone made_command space.now reply space.now) }
{
    send_number(space.made(), page, sink)
}

fn quit<K: Sink>(space: &Space, sink: &mut K) -> Result<(), Failed>
    ensures { Replies K.Sink sink.old sink.new result
        (λ reply. ObeysAlone quit_command space.now reply space.now) }
{
    space.stands();
    write_all(sink, b"ok\n")
}
