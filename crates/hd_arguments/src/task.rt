//! What the words after the program's name ask for.
use hd_terms::Mode;

/// How a file is opened.
#[derive(Clone, Copy, Debug, PartialEq, Eq)]
pub struct Opening<'a> {
    pub file: &'a str,
    /// How many threads decode it, 1 to 16.
    pub workers: u32,
    /// How far phantom references are followed.
    pub mode: Mode,
    /// Whether replies show names from the beginning.
    pub names: bool,
}

/// How analysts are served over connections.
#[derive(Clone, Copy, Debug, PartialEq, Eq)]
pub struct Serving<'a> {
    pub opening: Opening<'a>,
    /// The port that is listened on, or 0 where the system chooses one.
    pub port: u16,
    /// How many analysts there are, 1 to 16.
    pub analysts: u8,
}

/// How browsers are served.
#[derive(Clone, Copy, Debug, PartialEq, Eq)]
pub struct Browsing<'a> {
    pub serving: Serving<'a>,
    /// The file of the page.
    pub page: &'a str,
}

/// What the words ask for.
#[derive(Clone, Copy, Debug, PartialEq, Eq)]
pub enum Task<'a> {
    /// One analyst's lines are served over a file.
    Run(Opening<'a>),
    /// The counts and totals of a file are printed.
    Stat(Opening<'a>),
    /// Several analysts' lines are served over a file, each over a connection.
    Serve(Serving<'a>),
    /// Several analysts' desks are served over a file to browsers, with a page.
    Web(Browsing<'a>),
    /// This version of the program is printed.
    Version(&'a str),
}
