//! Short replies, which take no memory.
ghost use Rattle.std.specs.Prelude.{◌≡◌, ◌+◌, ◌<◌, ◌≤◌, [], ◌∷◌, ◌++◌, length, decimal};
ghost use Rattle.hd_lines.specs.Replies.{accepted_reply, with_newline, answered, refused, event_line, refusal_name, line_fault_name};
ghost use Rattle.hd_analyst.specs.Replying.{answered_head};
ghost use Rattle.hd_analyst.specs.Editing.{edit_reply};
ghost use Rattle.hd_analyst.specs.Marking.{numbered_reply};

use crate::edit::NotDone;
use crate::fixed_buffer::FixedBuffer;
use hd_lines::LineFault;
use hd_state::Done;
use hd_terms::{LogFault, Refusal};
use itoa::Buffer;

/// The most bytes of a short reply.
pub const LONGEST_REPLY: usize = 256;

/// Puts the reply to an edit or an undo that ended so.
pub fn put_edit(out: &mut FixedBuffer<LONGEST_REPLY>, ended: Result<Done, NotDone>)
    ensures { out.new ≡ edit_reply ended }
{
    match ended {
        Ok(done) => put_done(out, done),
        Err(NotDone::Refused(refusal)) => put_refused(out, refusal_text(refusal)),
        Err(NotDone::Accepted { event }) => put_accepted(out, event),
    }
}

/// Puts the reply to an edit or an undo that is the event of this number, but to which the desk hasn't come.
fn put_accepted(out: &mut FixedBuffer<LONGEST_REPLY>, event: u32)
    ensures { out.new ≡ accepted_reply event }
{
    out.clear();
    out.put(b"no ");
    put_number(out, b"Accepted ", u64::from(event));
    put_text(out, b"");
}

/// Puts the reply to a command that ended so, whose line of answer is a word and a number.
pub fn put_numbered(out: &mut FixedBuffer<LONGEST_REPLY>, word: &[u8], ended: Result<u32, Refusal>)
    requires { length word.now ≤ 16 }
    ensures { out.new ≡ numbered_reply word.now ended }
{
    match ended {
        Ok(number) => {
            put_head(out, 1);
            put_number(out, word, u64::from(number));
            put_text(out, b"");
        }
        Err(refusal) => put_refused(out, refusal_text(refusal)),
    }
}

/// Puts `ok 1` and the line of an event.
fn put_done(out: &mut FixedBuffer<LONGEST_REPLY>, done: Done)
    ensures { out.new ≡ answered (event_line done.event done.fell done.back ∷ []) }
{
    put_head(out, 1);
    put_number(out, b"event ", u64::from(done.event));
    put_number(out, b" fell ", done.fell);
    put_number(out, b" back ", done.back);
    put_text(out, b"");
}

/// Puts a text and a number behind the bytes.
fn put_number(out: &mut FixedBuffer<LONGEST_REPLY>, text: &[u8], number: u64)
    requires { length out.old + length text.now + 40 ≤ LONGEST_REPLY }
    ensures bytes { out.new ≡ out.old ++ (text.now ++ decimal number) }
    ensures len { length out.new ≤ length out.old + length text.now + 40 }
{
    let mut buffer = Buffer::new();
    out.put(text);
    out.put(buffer.format(number).as_bytes());
}

/// Puts a text and the newline that ends it behind the bytes.
fn put_text(out: &mut FixedBuffer<LONGEST_REPLY>, text: &[u8])
    requires { length out.old + length text.now < LONGEST_REPLY }
    ensures bytes { out.new ≡ out.old ++ with_newline text.now }
    ensures len { length out.new ≡ length out.old + length text.now + 1 }
{
    out.put(text);
    out.put(b"\n");
}

/// Puts `ok` and a count of lines.
pub fn put_head(out: &mut FixedBuffer<LONGEST_REPLY>, lines: u32)
    ensures bytes { out.new ≡ answered_head lines }
    ensures short { length out.new ≤ 44 }
{
    let mut number = Buffer::new();
    out.clear();
    out.put(b"ok ");
    put_text(out, number.format(lines).as_bytes());
}

/// Puts `ok 1` and one line.
pub fn put_line(out: &mut FixedBuffer<LONGEST_REPLY>, line: &[u8])
    requires { length line.now ≤ 16 }
    ensures { out.new ≡ answered (line.now ∷ []) }
{
    put_head(out, 1);
    put_text(out, line);
}

/// Puts `no` and a name.
pub fn put_refused(out: &mut FixedBuffer<LONGEST_REPLY>, name: &[u8])
    requires { length name.now ≤ 16 }
    ensures { out.new ≡ refused name.now }
{
    out.clear();
    out.put(b"no ");
    put_text(out, name);
}

/// A refusal as it is printed.
pub fn refusal_text(refusal: Refusal) -> &'static [u8]
    ensures name { result.now ≡ refusal_name refusal }
    ensures short { length result.now ≤ 16 }
{
    match refusal {
        Refusal::NoSuchObject => b"NoSuchObject",
        Refusal::NoSuchClass => b"NoSuchClass",
        Refusal::NoSuchSlot => b"NoSuchSlot",
        Refusal::NotCuttable => b"NotCuttable",
        Refusal::NotReference => b"NotReference",
        Refusal::EmptySlot => b"EmptySlot",
        Refusal::NothingToUndo => b"NothingToUndo",
        Refusal::NoSuchRoot => b"NoSuchRoot",
        Refusal::NoSuchMark => b"NoSuchMark",
        Refusal::MarksFull => b"MarksFull",
        Refusal::AlreadyPrivate => b"AlreadyPrivate",
        Refusal::NotPrivate => b"NotPrivate",
        Refusal::Behind => b"Behind",
        Refusal::Foreign => b"Foreign",
        Refusal::Log(LogFault::NoSuchEvent) => b"NoSuchEvent",
        Refusal::Log(LogFault::NotYours) => b"NotYours",
        Refusal::Log(LogFault::NotLive) => b"NotLive",
        Refusal::Log(LogFault::LogFull) => b"LogFull",
        Refusal::Log(LogFault::OutOfMemory) => b"OutOfMemory",
    }
}

/// A line's fault as it is printed.
pub fn fault_name(fault: LineFault) -> &'static [u8]
    ensures name { result.now ≡ line_fault_name fault }
    ensures short { length result.now ≤ 16 }
{
    match fault {
        LineFault::LineTooLong => b"LineTooLong",
        LineFault::UnknownCommand => b"UnknownCommand",
        LineFault::BadArgument => b"BadArgument",
    }
}
