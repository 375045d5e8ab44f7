//! An analyst at work: the desk, the marks, and the private part where one is open.
ghost use Rattle.std.specs.Prelude.{◌≡◌, ◌∷◌, [], All, IfOk, OnOk, OnErr, IfErr};
ghost use Rattle.hd_terms.specs.Log.{IsLawful};
ghost use Rattle.hd_lines.specs.Memory.{board_log, with_names};
ghost use Rattle.hd_terms.specs.Schedule.{Board as ScheduledBoard};
ghost use Rattle.hd_state.specs.Situation.{Situation};
ghost use Rattle.hd_analyst.specs.AnalystInside.{board_in};
ghost use Rattle.hd_analyst.specs.Marking.{BackEnds, MarkEnds, PrivateEnds, RefreshEnds, Remembers};
ghost use Rattle.hd_analyst.specs.Work.{logs_of, situation_of, work_begun};

use hd_board::{Board, Desk, RefreshFault};
use hd_state::{Mark, State};
use hd_terms::{LogFault, NoMemory, Refusal};
use std::alloc::Global;
use std::marker::Model;
use std::mem;
use std::sync::Wait;
use std::thread::Threads;

/// The most marks of an analyst, mark 0 among them.
const MOST_MARKS: usize = 16;

/// A private part: the board on which its commands run, and the desk to which it goes back.
#[derive(Drop)]
pub(crate) struct PrivatePart {
    board: Board,
    home: Desk,
}

/// The desk that an analyst works at, and the marks by their numbers. Mark 0 is the desk's state as the session began. In a
/// private part the desk is that of the part.
pub struct Analyst<'a> {
    pub(crate) board: &'a Board,
    pub(crate) desk: Desk,
    pub(crate) marks: Vec<Mark>,
    pub(crate) private: Option<PrivatePart>,
    /// Whether replies show names.
    pub(crate) names: bool,
}

impl Drop for Analyst<'_> {
    /// Drops the fields. A derived drop would be proved anew at each place that lets go of one.
    fn drop(self) {
        let Self {
            board: _,
            desk,
            marks,
            private,
            names: _,
        } = self;
    }
}

impl<'a> Model for Analyst<'a> {
    ghost use Rattle.hd_analyst.specs.Work.{Work};

    ghost Value = { Work };

    ghost use Rattle.hd_analyst.specs.AnalystInside.{work_of, IsAnalyst};

    ghost view = { work_of };

    ghost invariant = { IsAnalyst };
}

/// The marks with which a session of a desk begins. Room for all marks is taken.
///
/// # Errors
///
/// Memory ran out.
pub fn first_marks(alloc: Global, desk: &Desk) -> Result<Vec<Mark>, NoMemory>
    ensures { IfOk result (λ marks. marks.items ≡ situation_of desk.now ∷ []) }
{
    let mut marks = Vec::with_capacity(alloc, MOST_MARKS)?;
    let mark = desk.state().mark()?;
    marks.push(mark)?;
    Ok(marks)
}

/// What a desk has seen is a lawful log.
pub(crate) fn lawful_seen(desk: &Desk)
    ensures { IsLawful desk.now.seen }
{
    let _events = desk.seen().len();
}

/// The board on which commands run.
pub(crate) fn board_in<'b>(board: &'b Board, private: &'b Option<PrivatePart>) -> &'b Board
    ensures { result.now ≡ board_in board.now private.now }
{
    match private {
        Some(part) => &part.board,
        None => board,
    }
}

impl<'a> Analyst<'a> {
    /// A session of a desk at a board begins with these marks. Its replies show names, or they don't.
    pub fn begin(board: &'a Board, desk: Desk, marks: Vec<Mark>, names: bool) -> Analyst<'a>
        requires { marks.items ≡ situation_of desk ∷ [] }
        ensures { result ≡ work_begun board.now names desk }
    {
        Analyst {
            board,
            desk,
            marks,
            private: None,
            names,
        }
    }

    /// The desk that the analyst leaves: where a private part is open, that to which it goes back.
    pub fn leave(self) -> Desk
        ensures who { result.who ≡ self.entry.analyst.who }
        ensures dump { result.dump ≡ self.entry.analyst.dump }
        ensures seen { result.seen ≡ board_log self.entry.memory }
    {
        let Self {
            board: _,
            desk,
            marks,
            private,
            names: _,
        } = self;
        drop(marks);
        match private {
            Some(part) => part.home,
            None => desk,
        }
    }

    /// What the desk has seen is a lawful log.
    pub(crate) fn is_lawful(&self)
        ensures { IsLawful self.now.memory.log }
    {
        lawful_seen(&self.desk);
    }

    /// The state of the desk.
    pub(crate) fn state(&self) -> &State
        ensures dump { result.now.dump ≡ self.now.analyst.dump }
        ensures log { result.now.log ≡ self.now.front }
    {
        self.desk.state()
    }

    /// The marks, by their numbers.
    pub(crate) fn marks(&self) -> &[Mark]
        ensures logs { logs_of result.now ≡ self.now.memory.marks }
        ensures dumps { All (λ (mark : Situation). mark.dump ≡ self.now.analyst.dump) result.now }
    {
        self.marks.as_slice()
    }

    /// Whether replies show names.
    pub(crate) fn names(&self) -> bool
        ensures { result ≡ self.now.memory.names }
    {
        self.names
    }

    /// From here on replies show names, or they don't.
    pub(crate) fn show_names(&mut self, on: bool)
        ensures { Remembers self.old self.new (with_names self.old.memory on) }
    {
        self.names = on;
    }

    /// Refreshes the desk, before a command is run.
    ///
    /// # Errors
    ///
    /// Why the command isn't run: memory ran out, on the way to the board's log or before; or that log is foreign.
    pub(crate) fn refresh(
        &mut self,
        rt: &(impl Wait + Threads + Sync),
        alloc: Global,
    ) -> Result<(), Refusal>
        ensures { RefreshEnds self.old self.new result }
    {
        let board = board_in(self.board, &self.private);
        lawful_seen(&self.desk);
        let ended = self.desk.refresh(rt, alloc, board);
        lawful_seen(&self.desk);
        match ended {
            Ok(()) => Ok(()),
            Err(RefreshFault::Foreign(_)) => Err(Refusal::Foreign),
            Err(RefreshFault::Behind) => Err(Refusal::Behind),
            Err(RefreshFault::OutOfMemory) => Err(Refusal::Log(LogFault::OutOfMemory)),
        }
    }

    /// Marks the log, and gives the mark's number.
    ///
    /// # Errors
    ///
    /// There are 16 marks, or memory ran out. Nothing changes.
    pub(crate) fn mark(&mut self) -> Result<u32, Refusal>
        requires { self.old.front ≡ self.old.memory.log }
        ensures { MarkEnds self.old self.new result }
    {
        if self.marks.len() >= MOST_MARKS {
            return Err(Refusal::MarksFull);
        }
        let number = self.marks.len() as u32;
        let Ok(mark) = self.desk.state().mark() else {
            return Err(Refusal::Log(LogFault::OutOfMemory));
        };
        match self.marks.push(mark) {
            Ok(()) => Ok(number),
            Err(_) => Err(Refusal::Log(LogFault::OutOfMemory)),
        }
    }

    /// Begins a private part, and gives the number of events from which it goes on.
    ///
    /// # Errors
    ///
    /// A private part is open, or memory ran out. Nothing changes.
    pub(crate) fn go_private(&mut self) -> Result<u32, Refusal>
        requires { self.old.front ≡ self.old.memory.log }
        ensures { PrivateEnds self.old self.new result }
    {
        if self.private.is_some() {
            return Err(Refusal::AlreadyPrivate);
        }
        let Ok((board, desk)) = Board::fork(&self.desk) else {
            return Err(Refusal::Log(LogFault::OutOfMemory));
        };
        let events = desk.seen().len();
        let home = mem::replace(&mut self.desk, desk);
        self.private = Some(PrivatePart { board, home });
        Ok(events)
    }

    /// Ends the private part, and gives how many events it has had.
    ///
    /// # Errors
    ///
    /// None is open. Nothing changes.
    pub(crate) fn go_back(&mut self) -> Result<u32, Refusal>
        ensures { BackEnds self.old self.new result }
    {
        let Some(part) = self.private.take() else {
            return Err(Refusal::NotPrivate);
        };
        let events = self.desk.seen().len();
        let begun = part.home.seen().len();
        self.desk = part.home;
        Ok(events.saturating_sub(begun))
    }
}
