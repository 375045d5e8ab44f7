//! The workbench `hdesk`: binds `hd_program` to the words, streams and memory of the process.
//!
//! `main` reads the words of the command line, wraps standard input in a prompt and standard output in a buffer, and
//! runs `program`. A word that isn't UTF-8 is a usage fault. `program_tests.rt` runs the program over given words and
//! files, `terminal_tests.rt` checks what a terminal is shown.
#![tactic(auto)]

#[cfg(test)]
mod program_tests;
#[cfg(test)]
mod terminal_tests;

use hd_program::{FAILED, USAGE, program};
use hd_terminal::Prompting;
use std::env;
use std::fs::File;
use std::io::{self, BufWriter, IsTerminal, Write};
use std::net::{Net, TcpListener, TcpStream};
use std::process::ExitCode;
use std::random::RandomSource;
use std::rt::{Env, Files};
use std::sync::Wait;
use std::thread::Threads;
use std::time::Clock;

/// What the standard streams are.
#[derive(Clone, Copy)]
struct Terminals {
    /// Standard error is a terminal.
    shows: bool,
    /// Standard input is a terminal too.
    asks: bool,
}

/// Binds the program to the words, the standard streams and the memory of the process. Faults are reported on `faults`, and
/// prompts are written on `prompts`.
fn start<R, E: Write, P: Write + Drop>(
    rt: &R,
    terminals: Terminals,
    faults: &mut E,
    prompts: P,
) -> io::Result<u8>
where
    R: AllocGlobal
        + Clock
        + Env
        + Files<File = File>
        + Input
        + Net<Listener = TcpListener, Stream = TcpStream>
        + Print
        + RandomSource
        + Threads
        + Wait
        + Sync,
{
    let mut words = env::args(rt)?;
    let _name = words.next();
    let words: Vec<String> = words.collect(rt.alloc())?;
    let mut input = Prompting::new(rt.alloc(), rt.reader(), prompts, terminals.asks)?;
    let mut output = BufWriter::new(rt.alloc(), io::writer(rt))?;
    let status = program(
        rt,
        words.as_slice(),
        terminals.shows,
        &mut input,
        &mut output,
        faults,
    );
    Ok(status)
}

/// The exit status of a run that couldn't start: a word isn't UTF-8, or memory ran out. The fault is reported.
fn not_started(rt: &HostRuntime, kind: io::ErrorKind) -> u8 {
    match kind {
        io::ErrorKind::InvalidData => {
            let _ = rt.eprintln("hdesk: a word is not UTF-8");
            USAGE
        }
        _ => {
            let _ = rt.eprintln("hdesk: OutOfMemory");
            FAILED
        }
    }
}

fn main(rt: HostRuntime) -> ExitCode {
    let mut faults = rt.stderr();
    let shows = faults.is_terminal();
    let terminals = Terminals {
        shows,
        asks: shows && rt.stdin().is_terminal(),
    };
    match start(&rt, terminals, &mut faults, rt.stderr()) {
        Ok(status) => ExitCode::from(status),
        Err(error) => ExitCode::from(not_started(&rt, error.kind())),
    }
}
