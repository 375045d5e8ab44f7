//! Worked examples: dumps, lines and `stat` with the answers that they have to get.
//!
//! The program reads cases from standard input and writes the name and the answers of each. Its stored input has the
//! cases, and its stored output the answers that the formats and the definitions demand. `README.md` says how to add one.
#![tactic(auto)]

mod answers;
mod case;
mod cuts;
mod input;
mod steps;

use case::Case;
use std::alloc::AllocError;
use std::io::{self, Write};
use std::process::ExitCode;
use std::random::RandomSource;
use std::sync::Wait;
use std::thread::Threads;
use steps::run_line;
use thiserror::Error;

/// Why the cases can't be run on.
#[derive(Clone, Copy, Debug, PartialEq, Eq, Error)]
pub enum CaseFault {
    /// The dump of the case is spelled wrong.
    #[error("{0}")]
    Dump(hd_spell::SpellError),
    /// A word of the line is missing or wrong.
    #[error("a word is missing or wrong")]
    WrongWord,
    /// Memory ran out.
    #[error("OutOfMemory")]
    OutOfMemory,
}

impl From<AllocError> for CaseFault {
    fn from(_error: AllocError) -> CaseFault {
        CaseFault::OutOfMemory
    }
}

/// Runs the cases of a text. At a fault, tells the number of its line.
fn run_cases<R: AllocGlobal + RandomSource + Threads + Wait + Sync>(
    rt: &R,
    text: &str,
    case: &mut Case,
) -> Result<(), (usize, CaseFault)> {
    let mut number = 0usize;
    for line in text.lines() {
        number = number.saturating_add(1);
        if let Err(fault) = run_line(rt, case, line) {
            return Err((number, fault));
        }
    }
    run_line(rt, case, "").map_err(|fault| (number, fault))
}

fn main(rt: HostRuntime) -> io::Result<ExitCode> {
    let text = io::read_to_string(rt.alloc(), rt.reader())?;
    let mut case = Case::new(rt.alloc());
    let ended = run_cases(&rt, text.as_str(), &mut case);
    io::writer(&rt).write_all(case.answers())?;
    match ended {
        Ok(()) => Ok(ExitCode::SUCCESS),
        Err((line, fault)) => {
            eprintln!(rt; "hd_rows: line {line}: {fault}")?;
            Ok(ExitCode::FAILURE)
        }
    }
}
