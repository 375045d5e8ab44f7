//! A case: a dump, what has been put in for a session over it, and all that has been answered so far.
use crate::CaseFault;
use crate::answers::Settings;
use crate::input::{InputLine, put_input};
use hd_spell::spell;
use hd_terms::Mode;
use std::alloc::{AllocError, Global};

/// The case that is being run.
pub struct Case {
    alloc: Global,
    spelling: String,
    input: Option<Vec<u8>>,
    most_workers: u32,
    mode: Mode,
    written: Vec<u8>,
}

impl Drop for Case {
    /// Drops the fields. A derived drop would be proved anew at each place that lets go of one.
    fn drop(self) {
        let Self {
            alloc: _,
            spelling,
            input,
            most_workers: _,
            mode: _,
            written,
        } = self;
    }
}

impl Case {
    /// No case yet.
    pub fn new(alloc: Global) -> Case {
        Case {
            alloc,
            spelling: String::new(alloc),
            input: None,
            most_workers: 1,
            mode: Mode::Direct,
            written: Vec::new(alloc),
        }
    }

    /// All that the cases have been answered so far.
    pub fn answers(&self) -> &[u8] {
        self.written.as_slice()
    }

    /// Begins the next case, without a dump, for one worker and in mode Direct.
    pub fn begin(&mut self) {
        self.spelling.clear();
        self.most_workers = 1;
        self.mode = Mode::Direct;
    }

    /// The runs of this case are made with every number of workers up to this one.
    pub fn set_workers(&mut self, most: u32) {
        self.most_workers = most;
    }

    /// The dump of this case is opened in this mode.
    pub fn set_mode(&mut self, mode: Mode) {
        self.mode = mode;
    }

    /// How the dump is opened: with how many workers at most, and in which mode.
    pub fn settings(&self) -> Settings {
        Settings {
            most_workers: self.most_workers,
            mode: self.mode,
        }
    }

    /// Adds a line to the spelling of the dump.
    pub fn put_part(&mut self, line: &str) -> Result<(), AllocError> {
        self.spelling.push_str(line)?;
        self.spelling.push_str("\n")
    }

    /// The bytes of the dump.
    pub fn dump(&self) -> Result<Vec<u8>, CaseFault> {
        match spell(self.alloc, self.spelling.as_str()) {
            Ok(bytes) => Ok(bytes),
            Err(error) => Err(CaseFault::Dump(error)),
        }
    }

    /// What has been put in for a session, if there is one to be run.
    pub fn take_input(&mut self) -> Option<Vec<u8>> {
        self.input.take()
    }

    /// Puts one more line in for the session that comes.
    pub fn put_input(&mut self, line: InputLine<'_>) -> Result<(), AllocError> {
        let mut input = match self.input.take() {
            Some(input) => input,
            None => Vec::new(self.alloc),
        };
        put_input(&mut input, line)?;
        self.input = Some(input);
        Ok(())
    }

    /// Writes a text.
    pub fn put(&mut self, text: &[u8]) -> Result<(), AllocError> {
        self.written.extend_from_slice(text)
    }
}
