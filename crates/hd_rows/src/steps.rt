//! The lines of a case, run one after another.
use crate::CaseFault;
use crate::answers::{Question, answer_of_all, last_lines, opening};
use crate::case::Case;
use crate::cuts::{Cut, openings_of_cuts};
use crate::input::read_input;
use hd_terms::Mode;
use std::random::RandomSource;
use std::sync::Wait;
use std::thread::Threads;

/// Runs a line of a case. What is put in for a session is kept, and the first other line runs the session.
pub fn run_line<R: AllocGlobal + RandomSource + Threads + Wait + Sync>(
    rt: &R,
    case: &mut Case,
    line: &str,
) -> Result<(), CaseFault> {
    if let Some(input) = read_input(line) {
        case.put_input(input)?;
        return Ok(());
    }
    let (word, rest) = line.split_once(' ').unwrap_or((line, ""));
    if let Some(input) = case.take_input() {
        if word == "last" {
            return run_session(rt, case, input.as_slice(), read_count(rest)?);
        }
        run_session(rt, case, input.as_slice(), u32::MAX)?;
    }
    run_step(rt, case, word, rest, line)
}

/// Runs a line that puts nothing in.
fn run_step<R: AllocGlobal + RandomSource + Threads + Wait + Sync>(
    rt: &R,
    case: &mut Case,
    word: &str,
    rest: &str,
    line: &str,
) -> Result<(), CaseFault> {
    match word {
        "" | "#" => Ok(()),
        "case" => begin_case(case, rest),
        "workers" => {
            case.set_workers(read_count(rest)?);
            Ok(())
        }
        "phantom" => {
            case.set_mode(read_mode(rest)?);
            Ok(())
        }
        "stat" => run_stat(rt, case),
        "opens" => run_opens(rt, case),
        "change" => run_change(rt, case, rest, line),
        "prefixes" => run_cuts(rt, case, Cut::File),
        "bodies" => run_cuts(rt, case, Cut::Body),
        _ => {
            case.put_part(line)?;
            Ok(())
        }
    }
}

/// The number that decimal digits spell.
fn read_count(word: &str) -> Result<u32, CaseFault> {
    match word.parse::<u32>() {
        Ok(count) => Ok(count),
        Err(_) => Err(CaseFault::WrongWord),
    }
}

/// The mode that a word names.
fn read_mode(word: &str) -> Result<Mode, CaseFault> {
    match word {
        "direct" => Ok(Mode::Direct),
        "closure" => Ok(Mode::Closure),
        _ => Err(CaseFault::WrongWord),
    }
}

/// Writes the name of the next case and begins it.
fn begin_case(case: &mut Case, name: &str) -> Result<(), CaseFault> {
    case.begin();
    case.put(b"\ncase ")?;
    case.put(name.as_bytes())?;
    case.put(b"\n")?;
    Ok(())
}

/// Runs a session and writes the last lines of what it is answered.
fn run_session<R: AllocGlobal + RandomSource + Threads + Wait + Sync>(
    rt: &R,
    case: &mut Case,
    input: &[u8],
    count: u32,
) -> Result<(), CaseFault> {
    let dump = case.dump()?;
    let question = Question::Session(input);
    let replies = answer_of_all(rt, dump.as_slice(), case.settings(), question)?;
    case.put(last_lines(replies.as_slice(), count))?;
    Ok(())
}

/// Writes the counts and totals of the dump.
fn run_stat<R: AllocGlobal + RandomSource + Threads + Wait + Sync>(
    rt: &R,
    case: &mut Case,
) -> Result<(), CaseFault> {
    let dump = case.dump()?;
    let text = answer_of_all(rt, dump.as_slice(), case.settings(), Question::Stat)?;
    case.put(text.as_slice())?;
    Ok(())
}

/// Writes how the dump opens.
fn run_opens<R: AllocGlobal + RandomSource + Threads + Wait + Sync>(
    rt: &R,
    case: &mut Case,
) -> Result<(), CaseFault> {
    let dump = case.dump()?;
    let text = opening(rt, dump.as_slice(), case.settings().most_workers)?;
    case.put(text.as_slice())?;
    Ok(())
}

/// Writes how the dump opens with one other byte, behind the line that says which.
fn run_change<R: AllocGlobal + RandomSource + Threads + Wait + Sync>(
    rt: &R,
    case: &mut Case,
    rest: &str,
    line: &str,
) -> Result<(), CaseFault> {
    let (offset, byte) = rest.split_once(' ').ok_or(CaseFault::WrongWord)?;
    let offset = read_count(offset)?;
    let Ok(byte) = u8::from_str_radix(byte, 16) else {
        return Err(CaseFault::WrongWord);
    };
    let mut dump = case.dump()?;
    match dump.get_mut(offset as usize) {
        Some(place) => *place = byte,
        None => return Err(CaseFault::WrongWord),
    }
    let text = opening(rt, dump.as_slice(), case.settings().most_workers)?;
    case.put(line.as_bytes())?;
    case.put(b": ")?;
    case.put(text.as_slice())?;
    Ok(())
}

/// Writes how the dump opens that is cut to each length below its own.
fn run_cuts<R: AllocGlobal + RandomSource + Threads + Wait + Sync>(
    rt: &R,
    case: &mut Case,
    cut: Cut,
) -> Result<(), CaseFault> {
    let dump = case.dump()?;
    let text = openings_of_cuts(rt, dump.as_slice(), cut, case.settings().most_workers)?;
    case.put(text.as_slice())?;
    Ok(())
}
