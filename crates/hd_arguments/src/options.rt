//! The words that the program takes, as `clap` is told them.
use crate::limits::{MOST_ANALYSTS, VERSION};
use clap::{Arg, ArgAction, Command, value_parser};
use hd_terms::MOST_WORKERS;
use std::alloc::{AllocError, Global};

/// What an asked help says at its end.
const EXAMPLES: &str = "Without words the built-in sample is served on standard input and output.

Examples:
  hdesk run heap.hprof           serve the lines of standard input over a dump
  hdesk stat heap.hprof          print its counts, and its objects by strength
  hdesk serve heap.hprof --port 7070 --analysts 2
                                 serve two analysts, each of whom calls: nc 127.0.0.1 7070
  hdesk web heap.hprof --port 7080 --analysts 1 --page desk.html
                                 serve a desk in the browser: http://127.0.0.1:7080/
  printf 'strength 0x2\\nquit\\n' | hdesk";

/// The argument that names a file.
fn file_argument<'a>(alloc: Global) -> Arg<'a> {
    Arg::new(alloc, "FILE")
        .required(true)
        .help("A heap dump in the format JAVA PROFILE 1.0.2 or 1.0.1")
}

/// The option that says how many workers decode.
fn workers_option<'a>(alloc: Global) -> Arg<'a> {
    Arg::new(alloc, "workers")
        .long("workers")
        .value_name("N")
        .value_parser(value_parser!(u32).range(1..i64::from(MOST_WORKERS) + 1))
        .default_value("4")
        .help("How many threads decode the dump, 1 to 16")
}

/// The option that says how far phantom references are followed.
fn phantom_option<'a>(alloc: Global) -> Arg<'a> {
    Arg::new(alloc, "phantom")
        .long("phantom")
        .value_name("MODE")
        .value_parser(["direct", "closure"].as_slice())
        .default_value("direct")
        .help("How far phantom references are followed: to their referents, or to all behind these")
}

/// The option that says that replies show names from the beginning.
fn names_option<'a>(alloc: Global) -> Arg<'a> {
    Arg::new(alloc, "names")
        .long("names")
        .action(ArgAction::SetTrue)
        .help("Show the names of classes and fields from the beginning, as after names on")
}

/// The option that says which port is listened on.
fn port_option<'a>(alloc: Global) -> Arg<'a> {
    Arg::new(alloc, "port")
        .long("port")
        .value_name("P")
        .required(true)
        .value_parser(value_parser!(u32).range(0..65_536))
        .help("The port of 127.0.0.1 that is listened on, 0 to 65535; at 0 the system chooses one")
}

/// The option that says how many analysts are served.
fn analysts_option<'a>(alloc: Global) -> Arg<'a> {
    Arg::new(alloc, "analysts")
        .long("analysts")
        .value_name("N")
        .required(true)
        .value_parser(value_parser!(u32).range(1..i64::from(MOST_ANALYSTS) + 1))
        .help("How many analysts are served, 1 to 16: one for each connection")
}

/// The option that names the file of the page.
fn page_option<'a>(alloc: Global) -> Arg<'a> {
    Arg::new(alloc, "page")
        .long("page")
        .value_name("PAGE")
        .required(true)
        .help("The file of the page that browsers are given, at most 4 MiB")
}

/// A command of the program over a file.
fn over_file<'a>(alloc: Global, name: &'a str, about: &'a str) -> Result<Command<'a>, AllocError> {
    let command = Command::new(alloc, name)
        .about(about)
        .arg(file_argument(alloc))?
        .arg(workers_option(alloc))?
        .arg(phantom_option(alloc))?;
    Ok(command)
}

/// The command that serves several analysts.
fn serve_command<'a>(alloc: Global) -> Result<Command<'a>, AllocError> {
    let command = over_file(
        alloc,
        "serve",
        "Serve several analysts over one log: example, hdesk serve heap.hprof --port 7070 --analysts 2",
    )?
    .arg(names_option(alloc))?
    .arg(port_option(alloc))?
    .arg(analysts_option(alloc))?;
    Ok(command)
}

/// The command that serves browsers.
fn web_command<'a>(alloc: Global) -> Result<Command<'a>, AllocError> {
    let command = over_file(
        alloc,
        "web",
        "Serve desks in the browser: example, hdesk web heap.hprof --port 7080 --analysts 1 --page desk.html",
    )?
    .arg(port_option(alloc))?
    .arg(analysts_option(alloc))?
    .arg(page_option(alloc))?;
    Ok(command)
}

/// All words that the program takes.
pub(crate) fn all_words<'a>(alloc: Global) -> Result<Command<'a>, AllocError> {
    let run = over_file(
        alloc,
        "run",
        "Serve one analyst's lines over a dump: example, hdesk run heap.hprof",
    )?
    .arg(names_option(alloc))?;
    let command = Command::new(alloc, "hdesk")
        .bin_name("hdesk")?
        .version(VERSION)
        .about("A verified workbench for questions of reachability on Java heap dumps")
        .after_help(EXAMPLES)
        .no_binary_name(true)
        .subcommand_required(true)
        .subcommand(run)?;
    let stat = over_file(
        alloc,
        "stat",
        "Print a dump's counts and totals: example, hdesk stat heap.hprof",
    )?;
    let command = command.subcommand(stat)?;
    let serve = serve_command(alloc)?;
    let command = command.subcommand(serve)?;
    let web = web_command(alloc)?;
    let command = command.subcommand(web)?;
    Ok(command)
}
