//! Edits and undos: what they ask of the log, and what they come to.
ghost use Rattle.std.specs.Prelude.{◌≡◌};
ghost use Rattle.hd_terms.specs.declared.What.TheVariants as whats;
ghost use Rattle.hd_lines.specs.Asking.{undo_asked, unless_refused};
ghost use Rattle.hd_terms.specs.Refusals.{edit_refusal};
ghost use Rattle.hd_analyst.specs.Editing.{EditEnds, append_reason, edit_not_done, undo_not_done};

use crate::analyst::{Analyst, board_in, lawful_seen};
use hd_board::{AppendFault, EditFault, UndoFault};
use hd_state::Done;
use hd_terms::{Edit, LogFault, Refusal};
use std::alloc::Global;
use std::sync::Wait;
use std::thread::Threads;

/// Why an edit or an undo isn't answered with what it did.
#[derive(Clone, Copy)]
pub(crate) enum NotDone {
    /// It isn't in the log.
    Refused(Refusal),
    /// It is the event of this number, but memory ran out as the desk caught up with it.
    Accepted { event: u32 },
}

/// Why an event isn't appended, as it is answered.
fn append_reason(fault: AppendFault) -> Refusal
    ensures { result ≡ append_reason fault }
{
    match fault {
        AppendFault::Foreign(_) => Refusal::Foreign,
        AppendFault::Refused(refusal, _) => refusal,
        AppendFault::OutOfMemory => Refusal::Log(LogFault::OutOfMemory),
    }
}

/// Why an edit isn't done, as it is answered.
fn edit_not_done(fault: EditFault) -> NotDone
    ensures { result ≡ edit_not_done fault }
{
    match fault {
        EditFault::Behind => NotDone::Refused(Refusal::Behind),
        EditFault::Refused(refusal) => NotDone::Refused(refusal),
        EditFault::Append(fault) => NotDone::Refused(append_reason(fault)),
        EditFault::Accepted { event } => NotDone::Accepted { event },
    }
}

/// Why an undo isn't done, as it is answered.
fn undo_not_done(fault: UndoFault) -> NotDone
    ensures { result ≡ undo_not_done fault }
{
    match fault {
        UndoFault::Behind => NotDone::Refused(Refusal::Behind),
        UndoFault::NothingToUndo => NotDone::Refused(Refusal::NothingToUndo),
        UndoFault::Append(fault) => NotDone::Refused(append_reason(fault)),
        UndoFault::Accepted { event } => NotDone::Accepted { event },
    }
}

impl Analyst<'_> {
    /// Adds an edit to the log.
    ///
    /// # Errors
    ///
    /// Why it isn't done.
    pub(crate) fn edit(
        &mut self,
        rt: &(impl Wait + Threads + Sync),
        alloc: Global,
        edit: Edit,
    ) -> Result<Done, NotDone>
        requires { self.old.front ≡ self.old.memory.log }
        ensures { EditEnds self.old self.new (unless_refused (edit_refusal self.old.analyst.dump edit) (whats.Do edit)) result }
    {
        let board = board_in(self.board, &self.private);
        let ended = self.desk.edit(rt, alloc, board, edit);
        lawful_seen(&self.desk);
        match ended {
            Ok(done) => Ok(done),
            Err(fault) => Err(edit_not_done(fault)),
        }
    }

    /// Takes back the event of a number, or without one the last of the analyst's edits that is live.
    ///
    /// # Errors
    ///
    /// Why it isn't done.
    pub(crate) fn undo(
        &mut self,
        rt: &(impl Wait + Threads + Sync),
        alloc: Global,
        number: Option<u32>,
    ) -> Result<Done, NotDone>
        requires { self.old.front ≡ self.old.memory.log }
        ensures { EditEnds self.old self.new (undo_asked self.old.memory.log self.old.analyst.who number) result }
    {
        let board = board_in(self.board, &self.private);
        let ended = match number {
            Some(number) => self.desk.undo(rt, alloc, board, number),
            None => self.desk.undo_last(rt, alloc, board),
        };
        lawful_seen(&self.desk);
        match ended {
            Ok(done) => Ok(done),
            Err(fault) => Err(undo_not_done(fault)),
        }
    }
}
