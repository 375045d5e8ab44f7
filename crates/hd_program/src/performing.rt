//! The whole program, over given streams.
ghost use Rattle.std.specs.Prelude.{◌≡◌, ◌≢◌, ◌⊎◌, [], false, Result, Err, IfOk, OnOk, string_bytes};
ghost use Rattle.std.specs.Arc.{arc_value};
ghost use Rattle.std.specs.Io.KnownBytes.{Appends, Keeps};
ghost use Rattle.hd_terms.specs.Workers.{IsWorkers};
ghost use Rattle.hd_terms.specs.declared.Mode.TheVariants.{Direct};
ghost use Rattle.hd_protocol.specs.declared.run.RunFault.{RunFault};
ghost use Rattle.hd_protocol.specs.Serving.{RunsDump, RunsOver};
ghost use Rattle.hd_program.specs.Performing.{server_status, status, version_text, Performs, RunsFile, RunsWords, FailsFirst, ServesOrFails};
ghost use Rattle.hd_arguments.specs.Tasks.{IsAnalysts, TaskWorkers};

use crate::counts::{end_status, shown_counts};
use crate::file::{FileFault, read_file};
use crate::page::read_page;
use crate::server::{Server, ServerFault, serve_bytes};
use hd_arguments::{Browsing, Opening, Task, WORKERS, WordsFault, read_arguments};
use hd_buffer::Buffer;
use hd_graph::Graph;
use hd_protocol::{
    RunFault, SAMPLE, ServeFault, open_alone, open_bytes, run_bytes, serve_alone, stat_bytes,
};
use hd_terminal::StatusLine;
use hd_terms::Mode;
use std::alloc::{AllocError, Global};
use std::convert::AsSlice;
use std::fmt::Write as _;
use std::fs::File;
use std::io::{BufRead, Write};
use std::net::{Net, TcpListener, TcpStream};
use std::random::RandomSource;
use std::rt::Files;
use std::sync::{Arc, Wait};
use std::thread::Threads;
use std::time::Clock;

/// The run ended well.
pub const DONE: u8 = 0;

/// The run failed.
pub const FAILED: u8 = 1;

/// The dump could not be read.
pub const BAD_DUMP: u8 = 2;

/// The words after the program's name are wrong.
pub const USAGE: u8 = 64;

/// The exit status of a failed run.
fn status_of(fault: &RunFault) -> u8
    ensures { result ≡ status (Err fault.now) }
{
    match fault {
        RunFault::Dump(_) => BAD_DUMP,
        RunFault::Memory | RunFault::Serve(_) | RunFault::Close => FAILED,
    }
}

/// Reports how a run ended, if it failed, and answers the exit status.
fn report<E: Write>(ended: Result<(), RunFault>, faults: &mut E) -> u8
    ensures status { result ≡ status ended }
    ensures no_usage { result ≢ USAGE }
{
    match ended {
        Ok(()) => DONE,
        Err(fault) => {
            let _ = writeln!(faults, "hdesk: {fault}");
            status_of(&fault)
        }
    }
}

/// Reports how a server ended, if it failed, and answers the exit status.
fn report_server<E: Write>(ended: Result<(), ServerFault>, faults: &mut E) -> u8
    ensures status { result ≡ server_status ended }
    ensures no_usage { result ≢ USAGE }
{
    match ended {
        Ok(()) => DONE,
        Err(ServerFault::Open(fault)) => report(Err(fault), faults),
        Err(fault) => {
            let _ = writeln!(faults, "hdesk: {fault}");
            FAILED
        }
    }
}

/// Reports why a file isn't in memory, and answers the exit status.
fn report_file<E: Write>(fault: FileFault, path: &str, faults: &mut E) -> u8
    ensures no_usage { result ≢ USAGE }
    ensures failed { result ≢ DONE }
{
    match fault {
        FileFault::Unreadable => {
            let _ = writeln!(faults, "hdesk: cannot read {path}");
            FAILED
        }
        FileFault::Dump(fault) => report(Err(RunFault::Dump(fault)), faults),
        FileFault::Memory => report(Err(RunFault::Memory), faults),
    }
}

/// Reports what is wrong with the words, or prints what was asked of help, and answers the exit status.
fn report_usage<E: Write>(fault: &WordsFault, faults: &mut E) -> u8
    ensures { result ≢ DONE }
{
    match fault {
        WordsFault::Memory => report(Err(RunFault::Memory), faults),
        WordsFault::Usage(text) => {
            let _ = faults.write_all(text.as_bytes());
            USAGE
        }
    }
}

/// The line that tells a version.
fn version_line(alloc: Global, version: &str) -> Result<String, AllocError>
    ensures { IfOk result (λ text. string_bytes text ≡ version_text version.now) }
{
    let mut text = String::new(alloc);
    writeln!(text, "hdesk {version}")?;
    Ok(text)
}

/// Writes the line that tells a version, and hands it on.
///
/// # Errors
///
/// Memory ran out, or the writer fails or takes no byte.
fn tell_version<W: Write>(alloc: Global, version: &str, output: &mut W) -> Result<(), RunFault>
    ensures { OnOk result (Appends (W.contents output.old) (W.contents output.new) (version_text version.now)) }
{
    let Ok(line) = version_line(alloc, version) else {
        return Err(RunFault::Memory);
    };
    if output.write_all(line.as_bytes()).is_err() || output.flush().is_err() {
        return Err(RunFault::Serve(ServeFault::Write));
    }
    Ok(())
}

/// Serves one analyst's lines over an open graph, with names from the beginning where `names` says so. What is being done is shown
/// until the first line.
fn run_graph<T: AllocGlobal + Clock + Threads + Wait + Sync, R: BufRead, W: Write, E: Write>(
    rt: &T,
    graph: Arc<Graph>,
    names: bool,
    status: &mut StatusLine,
    input: &mut R,
    output: &mut W,
    faults: &mut E,
) -> Result<(), RunFault>
    ensures { RunsOver (arc_value graph) names (R.remaining input.old) (R.remaining input.new) (W.contents output.old) (W.contents output.new) result }
{
    status.show(rt, faults, "finding strengths");
    let counts = shown_counts(&graph, status);
    let (board, desk) = open_alone(rt, rt.alloc(), graph)?;
    end_status(status, rt, faults, counts);
    serve_alone(rt, names, board, desk, input, output)
}

/// Serves one analyst's lines over the bytes of a file, which are given up before the first line. What is being done is shown
/// until then.
fn run_file<
    T: AllocGlobal + Clock + RandomSource + Threads + Wait + Sync,
    R: BufRead,
    W: Write,
    E: Write,
>(
    rt: &T,
    bytes: Buffer<Global>,
    opening: Opening<'_>,
    status: &mut StatusLine,
    input: &mut R,
    output: &mut W,
    faults: &mut E,
) -> Result<(), RunFault>
    requires workers { IsWorkers opening.workers }
    ensures { RunsDump opening.entry.mode opening.entry.names bytes.items (R.remaining input.old) (R.remaining input.new) (W.contents output.old) (W.contents output.new) result }
{
    status.show(rt, faults, "finding objects and references");
    let graph = open_bytes(rt, bytes.as_slice(), opening.workers, opening.mode)?;
    drop(bytes);
    run_graph(rt, graph, opening.names, status, input, output, faults)?;
    Ok(())
}

/// Serves one analyst's lines over a file, and answers the exit status.
fn run<T, R: BufRead, W: Write, E: Write>(
    rt: &T,
    opening: Opening<'_>,
    status: &mut StatusLine,
    input: &mut R,
    output: &mut W,
    faults: &mut E,
) -> u8
where
    T: AllocGlobal + Clock + Files<File = File> + RandomSource + Threads + Wait + Sync,
    requires { IsWorkers opening.workers }
    ensures no_usage { result ≢ USAGE }
    ensures runs { RunsFile opening.entry.mode opening.entry.names (R.remaining input.old) (R.remaining input.new) (W.contents output.old) (W.contents output.new) result
        ⊎ FailsFirst (R.remaining input.old) (R.remaining input.new) (W.contents output.old) (W.contents output.new) result }
{
    match read_file(rt, opening.file, status, faults) {
        Ok(bytes) => {
            let ended = run_file(rt, bytes, opening, status, input, output, faults);
            status.wipe(faults);
            report(ended, faults)
        }
        Err(fault) => {
            status.wipe(faults);
            report_file(fault, opening.file, faults)
        }
    }
}

/// Serves several analysts over a file, and answers the exit status. The port is told on `output`, and the log is written
/// there at the end.
fn serve_file<T, W: Write, E: Write>(
    rt: &T,
    server: Server<'_>,
    status: &mut StatusLine,
    output: &mut W,
    faults: &mut E,
) -> u8
where
    T: AllocGlobal
        + Clock
        + Files<File = File>
        + Net<Listener = TcpListener, Stream = TcpStream>
        + RandomSource
        + Threads
        + Wait
        + Sync,
    requires workers { IsWorkers server.serving.opening.workers }
    requires analysts { IsAnalysts server.serving.analysts }
    ensures no_usage { result ≢ USAGE }
    ensures serves { ServesOrFails server.entry.serving.opening.mode (W.contents output.old) (W.contents output.new) result }
{
    let file = server.serving.opening.file;
    match read_file(rt, file, status, faults) {
        Ok(bytes) => {
            let ended = serve_bytes(rt, bytes, server, status, output, faults);
            status.wipe(faults);
            report_server(ended, faults)
        }
        Err(fault) => {
            status.wipe(faults);
            report_file(fault, file, faults)
        }
    }
}

/// Reads a page, serves analysts in browsers over a file, and answers the exit status. The port is told on `output`, and the log is
/// written there at the end.
fn web_file<T, W: Write, E: Write>(
    rt: &T,
    browsing: Browsing<'_>,
    status: &mut StatusLine,
    output: &mut W,
    faults: &mut E,
) -> u8
where
    T: AllocGlobal
        + Clock
        + Files<File = File>
        + Net<Listener = TcpListener, Stream = TcpStream>
        + RandomSource
        + Threads
        + Wait
        + Sync,
    requires workers { IsWorkers browsing.serving.opening.workers }
    requires analysts { IsAnalysts browsing.serving.analysts }
    ensures no_usage { result ≢ USAGE }
    ensures serves { ServesOrFails browsing.entry.serving.opening.mode (W.contents output.old) (W.contents output.new) result }
{
    match read_page(rt, browsing.page) {
        Ok(page) => {
            let server = Server {
                serving: browsing.serving,
                page: Some(page.as_slice()),
            };
            serve_file(rt, server, status, output, faults)
        }
        Err(fault) => report_file(fault, browsing.page, faults),
    }
}

/// Does what the words ask for, and answers the exit status. At a terminal it is shown how far the opening of the file is.
fn perform<T, R: BufRead, W: Write, E: Write>(
    rt: &T,
    task: Task<'_>,
    is_terminal: bool,
    input: &mut R,
    output: &mut W,
    faults: &mut E,
) -> u8
where
    T: AllocGlobal
        + Clock
        + Files<File = File>
        + Net<Listener = TcpListener, Stream = TcpStream>
        + RandomSource
        + Threads
        + Wait
        + Sync,
    requires { TaskWorkers task }
    ensures no_usage { result ≢ USAGE }
    ensures performs { Performs task.entry (R.remaining input.old) (R.remaining input.new) (W.contents output.old) (W.contents output.new) result }
{
    let mut status = StatusLine::begin(rt, is_terminal);
    match task {
        Task::Run(opening) => run(rt, opening, &mut status, input, output, faults),
        Task::Stat(opening) => {
            let read = read_file(rt, opening.file, &mut status, faults);
            status.wipe(faults);
            match read {
                Ok(bytes) => {
                    let (workers, mode) = (opening.workers, opening.mode);
                    let ended = stat_bytes(rt, bytes, workers, mode, output);
                    report(ended, faults)
                }
                Err(fault) => report_file(fault, opening.file, faults),
            }
        }
        Task::Serve(serving) => {
            let server = Server {
                serving,
                page: None,
            };
            serve_file(rt, server, &mut status, output, faults)
        }
        Task::Web(browsing) => web_file(rt, browsing, &mut status, output, faults),
        Task::Version(version) => report(tell_version(rt.alloc(), version, output), faults),
    }
}

/// Runs the program with these words after its name, and answers its exit status. Without words the built-in sample is
/// served on input and output; with words a file is served, there or over connections or in browsers, or its counts and totals are printed, or
/// the program's version is.
/// Faults are reported on `faults`: a usage fault, or an asked help, with the text that belongs to it, any other in one line. At
/// a usage fault, or where the file can't be read, no line is read and nothing is written on `output`. At a terminal one line on
/// `faults` says how far the opening of the file is.
pub fn program<T, R: BufRead, W: Write, E: Write>(
    rt: &T,
    words: &[String],
    is_terminal: bool,
    input: &mut R,
    output: &mut W,
    faults: &mut E,
) -> u8
where
    T: AllocGlobal
        + Clock
        + Files<File = File>
        + Net<Listener = TcpListener, Stream = TcpStream>
        + RandomSource
        + Threads
        + Wait
        + Sync,
    ensures run { words.now ≡ [] → (ended : Result (Unit {0}) RunFault) × (result ≡ status ended)
        × RunsDump Direct false SAMPLE (R.remaining input.old) (R.remaining input.new) (W.contents output.old) (W.contents output.new) ended }
    ensures words { words.now ≢ [] → RunsWords (R.remaining input.old) (R.remaining input.new) (W.contents output.old) (W.contents output.new) result }
    ensures usage { result ≡ USAGE → Keeps (R.remaining input.old) (R.remaining input.new) × Keeps (W.contents output.old) (W.contents output.new) }
{
    if words.is_empty() {
        let ended = run_bytes(rt, &SAMPLE, WORKERS, Mode::Direct, input, output);
        return report(ended, faults);
    }
    match read_arguments(rt.alloc(), words) {
        Ok(Some(task)) => perform(rt, task, is_terminal, input, output, faults),
        Ok(None) => {
            let _ = writeln!(
                faults,
                "usage: hdesk [run FILE | stat FILE | serve FILE --port P --analysts N | web FILE --port P --analysts N --page PAGE] [--workers N] [--phantom MODE] [--names] | --version"
            );
            USAGE
        }
        Err(fault) => report_usage(&fault, faults),
    }
}
