//! What a person at a terminal is shown on standard error: a status line while a file is opened, a prompt, and hints.
//!
//! `StatusLine` writes one line over itself: how much of a file is read (at most ten times a second), then what is
//! being done, then how many objects and references there are. `Prompting` is a reader that writes a prompt before it
//! asks for more. Before the prompt it says, of each line since the last one that was no command, what would be right
//! instead (`hint_to` of `hd_words`). Neither writes anything without a terminal, and a failed write is ignored: nothing
//! depends on it.
#![tactic(auto)]

ghost use Rattle.std.specs.Prelude.{Some, length};
ghost use Rattle.std.specs.Io.Buffered.{reader_buffer, reader_remaining};

use hd_words::{LONGEST_LINE, hint_to};
use std::alloc::Global;
use std::io::{self, BufRead, BufReader, Read, Write};
use std::time::Clock;

/// The least time between two states of a file's reading that are shown, in milliseconds.
const PAUSE: u64 = 100;

/// The bytes of a megabyte.
const MEGABYTE: u64 = 1_000_000;

/// What takes the line back, before it is written anew: the cursor goes to its start, and the rest is wiped.
const BACK: &str = "\r\x1b[K";

/// What is said once a dump is open.
const FIRST_HINT: &str = "names on: replies show the names of classes and fields";

/// The milliseconds of a clock, or 0 where it can't be read.
fn millis<T: Clock>(clock: &T) -> u64 {
    match clock.monotonic() {
        Ok(time) => u64::try_from(time.as_millis()).unwrap_or(u64::MAX),
        Err(_) => 0,
    }
}

/// One line at a terminal that says what is being done, and is written anew as that goes on. Without a terminal nothing is
/// written. Whether it could be written isn't looked at.
#[derive(Drop)]
pub struct StatusLine {
    is_terminal: bool,
    /// When the work began, in milliseconds.
    began: u64,
    /// When the line was last written, in milliseconds.
    written: u64,
    /// Whether the line stands there.
    is_shown: bool,
}

impl StatusLine {
    /// The work begins. Nothing is written yet.
    pub fn begin<T: Clock>(clock: &T, is_terminal: bool) -> StatusLine {
        let now = millis(clock);
        StatusLine {
            is_terminal,
            began: now,
            written: now,
            is_shown: false,
        }
    }

    /// Whether there is a terminal, so that anything is written.
    pub fn has_terminal(&self) -> bool {
        self.is_terminal
    }

    /// The whole seconds since the work began.
    fn seconds<T: Clock>(&self, clock: &T) -> u64 {
        millis(clock).saturating_sub(self.began) / 1_000
    }

    /// Shows how many of a file's bytes are read, at most ten times a second.
    pub fn show_read<T: Clock, E: Write>(
        &mut self,
        clock: &T,
        faults: &mut E,
        done: u64,
        all: u64,
    ) {
        let now = millis(clock);
        let is_recent = self.is_shown && now.saturating_sub(self.written) < PAUSE;
        if !self.is_terminal || is_recent {
            return;
        }
        let (done, all) = (done / MEGABYTE, all / MEGABYTE);
        let _ = write!(faults, "{BACK}reading: {done} MB of {all} MB");
        let _ = faults.flush();
        self.written = now;
        self.is_shown = true;
    }

    /// Shows what is being done, and for how many seconds the work has gone on.
    pub fn show<T: Clock, E: Write>(&mut self, clock: &T, faults: &mut E, what: &str) {
        if !self.is_terminal {
            return;
        }
        let seconds = self.seconds(clock);
        let _ = write!(faults, "{BACK}{what}, {seconds} s");
        let _ = faults.flush();
        self.is_shown = true;
    }

    /// The work is done: says how many objects and references there are, and how many seconds it took. The line stays, and a hint
    /// follows.
    pub fn end<T: Clock, E: Write>(&mut self, clock: &T, faults: &mut E, objects: u64, edges: u64) {
        if !self.is_terminal {
            return;
        }
        let seconds = self.seconds(clock);
        let _ = writeln!(
            faults,
            "{BACK}{objects} objects, {edges} references, {seconds} s\n{FIRST_HINT}"
        );
        let _ = faults.flush();
        self.is_shown = false;
    }

    /// Wipes the line, if it stands there.
    pub fn wipe<E: Write>(&mut self, faults: &mut E) {
        if self.is_shown {
            let _ = write!(faults, "{BACK}");
            let _ = faults.flush();
            self.is_shown = false;
        }
    }
}

/// A reader that shows a prompt before it asks for more, where a person is there to type, and hints to lines that are no commands.
/// Whether these could be written isn't looked at.
#[derive(Drop)]
pub struct Prompting<R: Read + Drop, E: Write + Drop> {
    input: BufReader<R>,
    prompts: E,
    is_terminal: bool,
    /// What was read of the line that isn't at its end, at most one byte more than a line may have.
    line: Vec<u8>,
    /// The hints to lines that were read since the last prompt.
    hints: Vec<&'static str>,
}

impl<R: Read + Drop, E: Write + Drop> Prompting<R, E> {
    /// A reader over another one, which prompts on `prompts` at a terminal.
    ///
    /// # Errors
    ///
    /// Memory ran out.
    pub fn new(
        alloc: Global,
        input: R,
        prompts: E,
        is_terminal: bool,
    ) -> io::Result<Prompting<R, E>> {
        let input = BufReader::new(alloc, input)?;
        Ok(Prompting {
            input,
            prompts,
            is_terminal,
            line: Vec::new(alloc),
            hints: Vec::new(alloc),
        })
    }
}

/// Writes the hints, and a prompt. No hint is left.
fn write_prompt<E: Write>(prompts: &mut E, hints: &mut Vec<&'static str>) {
    for hint in hints.as_slice() {
        let _ = writeln!(prompts, "{hint}");
    }
    hints.clear();
    let _ = write!(prompts, "hdesk> ");
    let _ = prompts.flush();
}

/// Notes the bytes that were read, and a hint for each line that ends among them and is no command.
fn note_lines(line: &mut Vec<u8>, hints: &mut Vec<&'static str>, bytes: &[u8]) {
    for byte in bytes {
        note_byte(line, hints, *byte);
    }
}

/// Notes a byte that was read. Where memory runs out, a hint is wrong or missing.
fn note_byte(line: &mut Vec<u8>, hints: &mut Vec<&'static str>, byte: u8) {
    if byte == b'\n' {
        if let Some(hint) = hint_to(line.as_slice()) {
            let _ = hints.push(hint);
        }
        line.clear();
    } else if line.len() <= LONGEST_LINE {
        let _ = line.push(byte);
    }
}

impl<R: Read + Drop, E: Write + Drop> Read for Prompting<R, E> {
    ghost remaining = { λ p. reader_remaining R.remaining p.input };

    fn read(&mut self, buf: &mut [u8]) -> io::Result<usize> {
        self.input.read(buf)
    }
}

impl<R: Read + Drop, E: Write + Drop> BufRead for Prompting<R, E> {
    ghost consumable_len = { λ p. Some (length (reader_buffer p.input)) };

    fn fill_buf(&mut self) -> io::Result<&[u8]> {
        if self.is_terminal && self.input.buffer().is_empty() {
            write_prompt(&mut self.prompts, &mut self.hints);
        }
        self.input.fill_buf()
    }

    fn consume(&mut self, amount: usize) {
        if self.is_terminal
            && let Some(bytes) = self.input.buffer().get(..amount)
        {
            note_lines(&mut self.line, &mut self.hints, bytes);
        }
        self.input.consume(amount);
    }
}
