//! Reading the words after the program's name.
ghost use Rattle.std.specs.Prelude.{◌≡◌, IfOk};
ghost use Rattle.hd_terms.specs.Workers.{IsWorkers};
ghost use Rattle.hd_arguments.specs.Tasks.{HasWorkers, IsAnalysts, TaskWorkers};

use crate::limits::{MOST_ANALYSTS, VERSION, WORKERS};
use crate::options::all_words;
use crate::task::{Browsing, Opening, Serving, Task};
use clap::error::ErrorKind;
use clap::{ArgMatches, Error};
use hd_terms::{MOST_WORKERS, Mode};
use std::alloc::Global;
use std::fmt::Write;

/// Why the words ask for nothing that can be done.
#[derive(Debug, Drop)]
pub enum WordsFault {
    /// They are wrong, or ask for help: the text that says so, lines that end in newlines.
    Usage(String),
    /// Out of memory.
    Memory,
}

/// The number of workers that the words name, 1 to 16; the option's own range sees to that.
fn workers_of(matches: &ArgMatches<'_>) -> u32
    ensures { IsWorkers result }
{
    match matches.get_one::<u32>("workers") {
        Some(workers) => workers.clamp(1, MOST_WORKERS),
        None => WORKERS,
    }
}

/// How far phantom references are followed, as the words say.
fn mode_of(matches: &ArgMatches<'_>) -> Mode {
    match matches.get_str("phantom") {
        Some("closure") => Mode::Closure,
        _ => Mode::Direct,
    }
}

/// The port that the words name; the option's own range sees to it that it is one.
fn port_of(matches: &ArgMatches<'_>) -> u16 {
    match matches.get_one::<u32>("port") {
        Some(port) => u16::try_from(port).unwrap_or(0),
        None => 0,
    }
}

/// The number of analysts that the words name, 1 to 16; the option's own range sees to that.
fn analysts_of(matches: &ArgMatches<'_>) -> u8
    ensures { IsAnalysts result }
{
    match matches.get_one::<u32>("analysts") {
        Some(analysts) => u8::try_from(analysts).unwrap_or(1).clamp(1, MOST_ANALYSTS),
        None => 1,
    }
}

/// What the words ask for, or `None` where they name no command.
fn read_task<'a>(alloc: Global, words: &'a [String]) -> Result<Option<Task<'a>>, Error>
    ensures { IfOk result HasWorkers }
{
    let matches = all_words(alloc)?.try_get_matches_from(words)?;
    let Some((name, matches)) = matches.subcommand() else {
        return Ok(None);
    };
    let Some(file) = matches.get_str("FILE") else {
        return Ok(None);
    };
    let opening = Opening {
        file,
        workers: workers_of(matches),
        mode: mode_of(matches),
        names: matches.get_flag("names"),
    };
    if name == "web" {
        let Some(page) = matches.get_str("page") else {
            return Ok(None);
        };
        return Ok(Some(Task::Web(Browsing {
            serving: serving_of(opening, matches),
            page,
        })));
    }
    Ok(Some(task_of(name, opening, matches)))
}

/// How analysts are served over a file.
fn serving_of<'a>(opening: Opening<'a>, matches: &ArgMatches<'_>) -> Serving<'a>
    ensures opening { result.opening ≡ opening.entry }
    ensures analysts { IsAnalysts result.analysts }
{
    Serving {
        opening,
        port: port_of(matches),
        analysts: analysts_of(matches),
    }
}

/// The task of a command's name over a file, where nothing else belongs to it.
fn task_of<'a>(name: &str, opening: Opening<'a>, matches: &ArgMatches<'_>) -> Task<'a>
    requires { IsWorkers opening.workers }
    ensures { TaskWorkers result }
{
    match name {
        "stat" => Task::Stat(opening),
        "serve" => Task::Serve(serving_of(opening, matches)),
        _ => Task::Run(opening),
    }
}

/// The text of what is wrong with the words, or that memory ran out.
fn fault_of(alloc: Global, error: &Error) -> WordsFault {
    if error.kind() == ErrorKind::OutOfMemory {
        return WordsFault::Memory;
    }
    let mut text = String::new(alloc);
    match write!(text, "{error}") {
        Ok(()) => WordsFault::Usage(text),
        Err(_) => WordsFault::Memory,
    }
}

/// What the words ask for, or `None` where they name no command.
///
/// # Errors
///
/// A usage fault with its text, an asked help among them; or out of memory.
pub fn read_arguments<'a>(
    alloc: Global,
    words: &'a [String],
) -> Result<Option<Task<'a>>, WordsFault>
    ensures { IfOk result HasWorkers }
{
    match read_task(alloc, words) {
        Ok(task) => Ok(task),
        Err(error) => match error.kind() {
            ErrorKind::DisplayVersion => Ok(Some(Task::Version(VERSION))),
            _ => Err(fault_of(alloc, &error)),
        },
    }
}
