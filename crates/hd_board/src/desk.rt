//! A desk: an analyst's own replica of the dump under the board's log.
ghost use Rattle.std.specs.Prelude.{ℕ, ◌≡◌, ◌<◌, ◌≤◌, ◌↔◌, ◌⊎◌, List, length, take, IfErr, IfOk, OnErr, OnOk, IsTrue, Some};
ghost use Rattle.hd_terms.specs.declared.Event.{Event as OneEvent};
ghost use Rattle.hd_terms.specs.declared.What.TheVariants as whats;
ghost use Rattle.hd_terms.specs.Log.{begins_with, last_live};
ghost use Rattle.hd_terms.specs.Appending.{with_event};
ghost use Rattle.hd_state.specs.Next.{IsNextLog};
ghost use Rattle.hd_board.specs.Replicas.{IsAt, IsBehindAt};
ghost use Rattle.hd_board.specs.Stepping.{ComesTo, StepsOnce, Unfinishes};
ghost use Rattle.hd_board.specs.Opening.{desk_at};
ghost use Rattle.hd_terms.specs.declared.errors.Refusal.{Refusal as OneRefusal};
ghost use Rattle.hd_board.specs.declared.faults.AppendFault.TheVariants as append_faults;
ghost use Rattle.hd_board.specs.Calls.{Appends, Edits, IsRefreshedBy, Learns, RefusesEdit, RefusesLearn, RefusesRefresh, RefusesUndo, RefusesUndoLast, seen_after};

use crate::board::Board;
use crate::faults::{
    AppendFault, Behind, EditFault, LearnFault, LookFault, RefreshFault, UndoFault,
};
use hd_graph::Graph;
use hd_log::Front;
use hd_queries::edit_refusal;
use hd_state::{Done, State};
use hd_terms::{Edit, Event, NoMemory, What};
use std::alloc::Global;
use std::marker::Model;
use std::sync::Wait;
use std::thread::Threads;

/// An analyst's replica: a state of the dump under some log, and what the analyst has seen of the board's log. The state's log
/// is a beginning of what was seen.
pub struct Desk {
    who: u8,
    seen: Front,
    state: State,
}

impl Drop for Desk {
    /// Drops the fields. A derived drop would be proved anew at each place that lets go of one.
    fn drop(self) {
        let Self {
            who: _,
            seen,
            state,
        } = self;
    }
}

/// Why the desk hasn't come to an event that it asked for.
#[derive(Drop)]
enum Unfinished {
    /// The event isn't appended.
    Append(AppendFault),
    /// It is the event of this number, but memory ran out as the desk caught up with it.
    Accepted { event: u32 },
}

impl Model for Desk {
    ghost use Rattle.hd_board.specs.Replicas.{Replica};
    ghost use Rattle.hd_board.specs.DeskInside.{replica_of, IsDesk};

    ghost Value = { Replica };

    ghost view = { replica_of };

    ghost invariant = { IsDesk };
}

impl Desk {
    /// The desk of a number, which has come to the log of a state and has seen no more.
    ///
    /// # Errors
    ///
    /// Memory ran out.
    pub(crate) fn begin(who: u8, state: State) -> Result<Desk, NoMemory>
        ensures { IfOk result (λ d. d ≡ desk_at state.dump state.log who) }
    {
        let seen = state.front().share()?;
        Ok(Desk { who, seen, state })
    }

    /// The analyst's number.
    pub fn who(&self) -> u8
        ensures { result ≡ self.now.who }
    {
        self.who
    }

    /// What was seen of the board's log.
    pub fn seen(&self) -> &Front
        ensures { result.now ≡ self.now.seen }
    {
        &self.seen
    }

    /// The log of the state.
    pub fn front(&self) -> &Front
        ensures { result.now ≡ self.now.front }
    {
        self.state.front()
    }

    /// Whether the state hasn't come yet to all that was seen.
    pub fn is_behind(&self) -> bool
        ensures behind { IsTrue result ↔ (length self.now.front < length self.now.seen) }
        ensures within { begins_with self.now.seen self.now.front }
    {
        self.state.front().len() < self.seen.len()
    }

    /// The dump's graph.
    pub fn graph(&self) -> &Graph
        ensures { result.now ≡ self.now.dump }
    {
        self.state.graph()
    }

    /// The state, which answers queries for its own log.
    pub fn state(&self) -> &State
        ensures dump { result.now.dump ≡ self.now.dump }
        ensures log { result.now.log ≡ self.now.front }
    {
        &self.state
    }

    /// Steps the state to all that was seen.
    ///
    /// # Errors
    ///
    /// Memory ran out. The state stays at the last event that it came to.
    pub fn catch_up(&mut self, rt: &(impl Threads + Sync), alloc: Global) -> Result<(), Behind>
        ensures ok { OnOk result (IsAt self.old self.new self.old.seen self.old.seen) }
        ensures err { OnErr result (IsBehindAt self.old self.new self.old.seen self.old.front) }
    {
        let count = self.seen.len();
        match self.step_to(rt, alloc, count) {
            Ok(()) => Ok(()),
            Err(NoMemory) => Err(Behind),
        }
    }

    /// Does an edit: catches up, decides by the dump whether the edit can be done, appends it to the board's log, and comes to
    /// it. What is answered is what this one event did, whatever events the desk came to before it. What is cut or dropped
    /// already may be cut or dropped again.
    ///
    /// # Errors
    ///
    /// Why the edit isn't done, the first reason in the order of [`EditFault`].
    pub fn edit(
        &mut self,
        rt: &(impl Wait + Threads + Sync),
        alloc: Global,
        board: &Board,
        edit: Edit,
    ) -> Result<Done, EditFault>
        ensures ok { IfOk result (Edits board.now self.old self.new edit) }
        ensures err { IfErr result (RefusesEdit board.now self.old self.new edit) }
    {
        let Ok(()) = self.catch_up(rt, alloc) else {
            return Err(EditFault::Behind);
        };
        if let Some(refusal) = edit_refusal(self.graph(), edit) {
            return Err(EditFault::Refused(refusal));
        }
        match self.append(rt, alloc, board, What::Do(edit)) {
            Ok(done) => Ok(done),
            Err(Unfinished::Append(fault)) => Err(EditFault::Append(fault)),
            Err(Unfinished::Accepted { event }) => Err(EditFault::Accepted { event }),
        }
    }

    /// Takes back the event of a number, which has to be a live edit of this analyst.
    ///
    /// # Errors
    ///
    /// Why the undo isn't done, the first reason in the order of [`UndoFault`]; there is always something to undo.
    pub fn undo(
        &mut self,
        rt: &(impl Wait + Threads + Sync),
        alloc: Global,
        board: &Board,
        k: u32,
    ) -> Result<Done, UndoFault>
        ensures ok { IfOk result (Appends board.now self.old self.new (whats.Undo k)) }
        ensures err { IfErr result (RefusesUndo board.now self.old self.new k) }
    {
        let Ok(()) = self.catch_up(rt, alloc) else {
            return Err(UndoFault::Behind);
        };
        match self.append(rt, alloc, board, What::Undo(k)) {
            Ok(done) => Ok(done),
            Err(Unfinished::Append(fault)) => Err(UndoFault::Append(fault)),
            Err(Unfinished::Accepted { event }) => Err(UndoFault::Accepted { event }),
        }
    }

    /// Takes back this analyst's last live edit of what was seen.
    ///
    /// # Errors
    ///
    /// Why the undo isn't done, the first reason in the order of [`UndoFault`].
    pub fn undo_last(
        &mut self,
        rt: &(impl Wait + Threads + Sync),
        alloc: Global,
        board: &Board,
    ) -> Result<Done, UndoFault>
        ensures ok { IfOk result (λ done. (k : ℕ) × (last_live self.old.seen self.old.who ≡ Some k) × Appends board.now self.old self.new (whats.Undo k) done) }
        ensures err { IfErr result (RefusesUndoLast board.now self.old self.new (last_live self.old.seen self.old.who)) }
    {
        let Ok(()) = self.catch_up(rt, alloc) else {
            return Err(UndoFault::Behind);
        };
        let Some(k) = self.seen.last_live(self.who) else {
            return Err(UndoFault::NothingToUndo);
        };
        let done = self.undo(rt, alloc, board, k)?;
        Ok(done)
    }

    /// Looks at the board's log and comes to it.
    ///
    /// # Errors
    ///
    /// The log is foreign; memory ran out on the way to it; or memory ran out before.
    pub fn refresh(
        &mut self,
        rt: &(impl Wait + Threads + Sync),
        alloc: Global,
        board: &Board,
    ) -> Result<(), RefreshFault>
        ensures ok { OnOk result (IsRefreshedBy board.now self.old self.new) }
        ensures err { IfErr result (RefusesRefresh board.now self.old self.new) }
    {
        match board.look(rt, &self.seen, self.who) {
            Ok(found) => self.seen = found,
            Err(LookFault::Foreign(found)) => return Err(RefreshFault::Foreign(found)),
            Err(LookFault::OutOfMemory) => return Err(RefreshFault::OutOfMemory),
        }
        let Ok(()) = self.catch_up(rt, alloc) else {
            return Err(RefreshFault::Behind);
        };
        Ok(())
    }

    /// Learns of a log that another desk has seen: one that continues what this desk has seen becomes what it has seen, and a
    /// beginning of that changes nothing. The state isn't moved.
    ///
    /// # Errors
    ///
    /// The log does neither; or memory ran out. The desk is as it was.
    pub fn learn(&mut self, told: &Front) -> Result<(), LearnFault>
        ensures ok { OnOk result (Learns self.old self.new told.now) }
        ensures err { IfErr result (RefusesLearn self.old self.new told.now) }
    {
        if self.seen.begins_with(told) {
            return Ok(());
        }
        if !told.continues(&self.seen, self.who) {
            return Err(LearnFault::Apart);
        }
        self.seen = told.share()?;
        Ok(())
    }

    /// Appends what the analyst does to the board's log, and comes to it. What is answered is what this one event did.
    ///
    /// # Errors
    ///
    /// The event isn't appended; or it is, but memory ran out as the desk caught up with it.
    fn append(
        &mut self,
        rt: &(impl Wait + Threads + Sync),
        alloc: Global,
        board: &Board,
        what: What,
    ) -> Result<Done, Unfinished>
        requires { self.old.front ≡ self.old.seen }
        ensures ok { IfOk result (Appends board.now self.old self.new what) }
        ensures err { IfErr result (Unfinishes board.now self.old self.new what) }
    {
        let event = Event {
            who: self.who,
            what,
        };
        let log = match board.append(rt, alloc, &self.seen, event) {
            Ok(log) => log,
            Err(fault) => return Err(Unfinished::Append(self.see_refused(fault))),
        };
        let number = log.len() - 1;
        match self.come_to(rt, alloc, log) {
            Ok(done) => Ok(done),
            Err(NoMemory) => Err(Unfinished::Accepted { event: number }),
        }
    }

    /// Sees the log that a refused append has found, where it isn't foreign. Answers why nothing is appended: that reason, or
    /// else that memory ran out.
    fn see_refused(&mut self, fault: AppendFault) -> AppendFault
        requires { (refusal : OneRefusal) (found : List OneEvent) → fault ≡ append_faults.Refused refusal found → begins_with found self.old.seen }
        ensures at { IsAt self.old self.new (seen_after self.old.seen result) self.old.front }
        ensures fault { (result ≡ fault) ⊎ (result ≡ append_faults.OutOfMemory) }
    {
        let AppendFault::Refused(refusal, found) = fault else {
            return fault;
        };
        let Ok(seen) = found.share() else {
            return AppendFault::OutOfMemory;
        };
        self.seen = seen;
        AppendFault::Refused(refusal, found)
    }

    /// Sees a longer log and steps the state to it. Answers what its last event did.
    ///
    /// # Errors
    ///
    /// Memory ran out. The log is seen, and the state stays at the last event that it came to.
    fn come_to(
        &mut self,
        rt: &(impl Threads + Sync),
        alloc: Global,
        log: Front,
    ) -> Result<Done, NoMemory>
        requires begins { begins_with log self.old.front }
        requires longer { length self.old.front < length log }
        ensures ok { IfOk result (λ done. (before : List OneEvent) (event : OneEvent) → log ≡ with_event before event → ComesTo self.old self.new before event done) }
        ensures err { OnErr result (IsBehindAt self.old self.new log self.old.front) }
    {
        self.seen = log;
        let last = self.seen.len() - 1;
        self.step_to(rt, alloc, last)?;
        let done = self.step_once(rt, alloc)?;
        Ok(done)
    }

    /// Steps the state to the first `count` events of what was seen.
    ///
    /// # Errors
    ///
    /// Memory ran out. The state stays at the last event that it came to.
    fn step_to(
        &mut self,
        rt: &(impl Threads + Sync),
        alloc: Global,
        count: u32,
    ) -> Result<(), NoMemory>
        requires least { length self.old.front ≤ count }
        requires most { count ≤ length self.old.seen }
        ensures ok { OnOk result (IsAt self.old self.new self.old.seen (take count self.old.seen)) }
        ensures err { OnErr result (IsBehindAt self.old self.new self.old.seen self.old.front) }
    {
        while self.state.front().len() < count {
            self.step_once(rt, alloc)?;
        }
        Ok(())
    }

    /// The log of the state with the next event of what was seen. Where that is all that was seen, the two share their events.
    fn next_log(&self, alloc: Global) -> Result<Front, NoMemory>
        requires { length self.now.front < length self.now.seen }
        ensures next { IfOk result (IsNextLog self.now.front) }
        ensures within { IfOk result (begins_with self.now.seen) }
    {
        let reached = self.state.front().len();
        let count = self.seen.len();
        prove!(reached < count);
        if count - reached == 1 {
            let seen = self.seen.share()?;
            return Ok(seen);
        }
        let event = self.seen.event(reached);
        match self.state.front().extend(alloc, event) {
            Ok(longer) => Ok(longer),
            Err(_) => Err(NoMemory),
        }
    }

    /// Steps the state by the next event of what was seen, and answers what this event did.
    ///
    /// # Errors
    ///
    /// Memory ran out. The desk is as it was.
    fn step_once(&mut self, rt: &(impl Threads + Sync), alloc: Global) -> Result<Done, NoMemory>
        requires { length self.old.front < length self.old.seen }
        ensures ok { IfOk result (StepsOnce self.old self.new) }
        ensures err { OnErr result (IsAt self.old self.new self.old.seen self.old.front) }
    {
        let next = self.next_log(alloc)?;
        let (state, done) = self.state.follow(rt, alloc, next)?;
        self.state = state;
        Ok(done)
    }
}
