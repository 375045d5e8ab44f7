//! Dumps spelled in words: from a text that is easy to read, the bytes of a heap dump. A tool for tests.
//!
//! Each line of the text is one part of the dump, in file order. Numbers are hexadecimal and stand for IDs, unless said
//! otherwise. What a line doesn't say is 0: times, serials, loaders, signers, protection domains.
//!
//! | Line | Part of the dump |
//! |---|---|
//! | `ids 4`, `ids 8` | the header of version 1.0.2, with the size of an ID |
//! | `ids 4 1.0.1` | the same with another version |
//! | `text 107 referent` | a UTF8 record: the ID of a text, and the text |
//! | `load 13 103` | a LOAD CLASS record: a class, and the text that is its name |
//! | `segment` | a HEAP DUMP SEGMENT record; what follows, up to the next record, is its body |
//! | `record 2c` | a record of this tag; what follows is its body |
//! | `root 1` | ROOT UNKNOWN |
//! | `array 1: 2 0 9` | OBJECT ARRAY DUMP with these elements, without a class |
//! | `array 1 of 99: 2 3` | the same with the array class 0x99 |
//! | `instance 20 of 11: 00000005 01` | INSTANCE DUMP of class 0x11 with these bytes as values |
//! | `reference 21 of 13: 5` | INSTANCE DUMP of class 0x13 whose values are one ID |
//! | `class 11: 107=object 109=int` | CLASS DUMP with an instance size of 4 and these instance fields, each the ID of its name and its type: a word, or the number of the type |
//! | `class 12 extends 11:` | the same with the super class 0x11, without fields |
//! | `bytes 09 0000 ab` | these bytes, in the body of a record or, before the first record, in the file |
//!
//! Three lines stand for many: `reference-names` for the texts 101 to 107 (the names of Reference, SoftReference,
//! WeakReference, FinalReference, PhantomReference, Finalizer, and `referent`) and the loads of the classes 11 to 16;
//! `reference-classes` for those six classes, where Reference declares the field 107, the class 16 extends 14, and the
//! others extend 11.
#![tactic(auto)]

mod lines;
mod numbers;
mod output;

use lines::put_line;
use output::Output;
use std::alloc::{AllocError, Global};
use thiserror::Error;

/// What is wrong with a line.
#[derive(Clone, Copy, Debug, PartialEq, Eq, Error)]
pub enum Mistake {
    /// Its first word is none of the notation's.
    #[error("no such part of a dump")]
    UnknownPart,
    /// A word is missing, or a word is not the number, the byte or the type that belongs there.
    #[error("a word is missing or wrong")]
    WrongWord,
    /// Memory ran out.
    #[error("OutOfMemory")]
    OutOfMemory,
}

impl From<AllocError> for Mistake {
    fn from(_error: AllocError) -> Mistake {
        Mistake::OutOfMemory
    }
}

/// Where a text is wrong, and why.
#[derive(Clone, Copy, Debug, PartialEq, Eq, Error)]
#[error("line {line} of the dump: {mistake}")]
pub struct SpellError {
    /// The number of the line, from 1.
    pub line: usize,
    /// What is wrong with it.
    pub mistake: Mistake,
}

/// The bytes of the dump that a text spells. A text without lines spells a file without bytes.
pub fn spell(alloc: Global, text: &str) -> Result<Vec<u8>, SpellError> {
    let mut output = Output::new(alloc);
    let mut line = 0usize;
    for part in text.lines() {
        line = line.saturating_add(1);
        if let Err(mistake) = put_line(&mut output, part) {
            return Err(SpellError { line, mistake });
        }
    }
    match output.into_bytes() {
        Ok(bytes) => Ok(bytes),
        Err(_) => Err(SpellError {
            line,
            mistake: Mistake::OutOfMemory,
        }),
    }
}
