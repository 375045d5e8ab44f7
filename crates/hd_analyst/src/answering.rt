//! Lines that spell something are run and answered.
ghost use Rattle.std.specs.Prelude.{◌≡◌, MatchOption, Ok, false, string_bytes};
ghost use Rattle.hd_lines.specs.declared.commands.Command.TheVariants as commands;
ghost use Rattle.hd_lines.specs.Lines.{is_quit_command};
ghost use Rattle.hd_terms.specs.Log.{IsLawful};
ghost use Rattle.hd_analyst.specs.Answering.{IsAnswered, IsRun};

use crate::analyst::Analyst;
use crate::fixed_buffer::FixedBuffer;
use crate::query::{Question, answer_query};
use crate::reply::{
    LONGEST_REPLY, fault_name, put_edit, put_head, put_numbered, put_refused, refusal_text,
};
use crate::texts::Showing;
use hd_lines::{Command, LineFault, Query};
use hd_terms::{LogFault, Refusal};
use std::alloc::Global;
use std::sync::Wait;
use std::thread::Threads;

/// Runs what a line spells whose last word is `text`, and answers it: a short reply replaces the bytes of `out`, a long one is
/// given back. Before a command other than `quit` the desk is refreshed.
pub fn answer(
    rt: &(impl Wait + Threads + Sync),
    alloc: Global,
    analyst: &mut Analyst<'_>,
    reading: Result<Command, LineFault>,
    text: &[u8],
    out: &mut FixedBuffer<LONGEST_REPLY>,
) -> Option<String>
    ensures { MatchOption result (IsAnswered analyst.old analyst.new text.now reading out.new)
        (λ reply. IsAnswered analyst.old analyst.new text.now reading (string_bytes reply)) }
{
    analyst.is_lawful();
    match reading {
        Ok(command) => answer_command(rt, alloc, analyst, command, text, out),
        Err(fault) => {
            put_refused(out, fault_name(fault));
            None
        }
    }
}

/// Refreshes the desk, runs a command, and answers it. For `quit` the desk isn't refreshed.
fn answer_command(
    rt: &(impl Wait + Threads + Sync),
    alloc: Global,
    analyst: &mut Analyst<'_>,
    command: Command,
    text: &[u8],
    out: &mut FixedBuffer<LONGEST_REPLY>,
) -> Option<String>
    requires { IsLawful analyst.old.memory.log }
    ensures { MatchOption result (IsAnswered analyst.old analyst.new text.now (Ok command) out.new)
        (λ reply. IsAnswered analyst.old analyst.new text.now (Ok command) (string_bytes reply)) }
{
    if let Command::Quit = command {
        put_head(out, 0);
        return None;
    }
    if let Err(refusal) = analyst.refresh(rt, alloc) {
        put_refused(out, refusal_text(refusal));
        return None;
    }
    run_command(rt, alloc, analyst, command, text, out)
}

/// Runs a command for an analyst whose desk is refreshed, and answers it.
fn run_command(
    rt: &(impl Wait + Threads + Sync),
    alloc: Global,
    analyst: &mut Analyst<'_>,
    command: Command,
    text: &[u8],
    out: &mut FixedBuffer<LONGEST_REPLY>,
) -> Option<String>
    requires command { is_quit_command (Ok command) ≡ false }
    requires refreshed { analyst.old.front ≡ analyst.old.memory.log }
    ensures { MatchOption result (IsRun analyst.old analyst.new text.now (Ok command) out.new)
        (λ reply. IsRun analyst.old analyst.new text.now (Ok command) (string_bytes reply)) }
{
    match command {
        Command::Ask(most, query) => return run_query(alloc, analyst, query, most, text, out),
        Command::Names(on) => {
            analyst.show_names(on);
            put_head(out, 0);
        }
        Command::Edit(edit) => put_edit(out, analyst.edit(rt, alloc, edit)),
        Command::Undo(number) => put_edit(out, analyst.undo(rt, alloc, number)),
        Command::Mark => put_numbered(out, b"mark ", analyst.mark()),
        Command::Private => put_numbered(out, b"private ", analyst.go_private()),
        Command::Back => put_numbered(out, b"back ", analyst.go_back()),
        Command::Quit => put_head(out, 0),
    }
    None
}

/// Runs a query for an analyst whose desk is refreshed, and answers it with at most `most` lines.
fn run_query(
    alloc: Global,
    analyst: &Analyst<'_>,
    query: Query,
    most: Option<u32>,
    text: &[u8],
    out: &mut FixedBuffer<LONGEST_REPLY>,
) -> Option<String>
    requires { analyst.now.front ≡ analyst.now.memory.log }
    ensures { MatchOption result (IsRun analyst.now analyst.now text.now (Ok (commands.Ask most query)) out.new)
        (λ reply. IsRun analyst.now analyst.now text.now (Ok (commands.Ask most query)) (string_bytes reply)) }
{
    let showing = Showing {
        names: analyst.names(),
        most,
    };
    let question = Question { query, text };
    match answer_query(
        alloc,
        analyst.state(),
        analyst.marks(),
        question,
        showing,
        out,
    ) {
        Ok(reply) => reply,
        Err(_) => {
            put_refused(out, refusal_text(Refusal::Log(LogFault::OutOfMemory)));
            None
        }
    }
}
