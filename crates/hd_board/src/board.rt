//! A board: the log that all its desks append to, behind a lock.
ghost use Rattle.std.specs.Prelude.{◌≡◌, ◌≤◌, List, [], map, IfErr, IfOk};
ghost use Rattle.std.specs.Arc.{arc_value};
ghost use Rattle.hd_terms.specs.declared.Event.{Event as OneEvent};
ghost use Rattle.hd_terms.specs.Log.{IsLawful};
ghost use Rattle.hd_terms.specs.Schedule.{Closes};
ghost use Rattle.hd_terms.specs.Appending.{with_event};
ghost use Rattle.hd_board.specs.Appends.{IsFound, IsTaken, RefusesAppend, RefusesLook};
ghost use Rattle.hd_board.specs.Closing.{numbered, RefusesClose};
ghost use Rattle.hd_board.specs.Opening.{opened_board, opened_desks, forked_board, forked_desk};

use crate::append::{append_to, is_found};
use crate::closing::{all_find, are_members, has_all};
use crate::desk::Desk;
use crate::faults::{AppendFault, CloseFault, LookFault};
use hd_graph::Graph;
use hd_log::Front;
use hd_state::State;
use hd_terms::{Event, NoMemory};
use std::alloc::Global;
use std::marker::Model;
use std::sync::{Arc, Mutex, Wait};
use std::thread::Threads;

/// The log of several analysts' desks over one dump, behind a lock, with what never changes: how many roots the dump has, the
/// log from which the board began, and the numbers of its desks. The lock holds the log and nothing else, and is held for one
/// append or one look, never while a state is stepped or a query runs.
pub struct Board {
    log: Mutex<Front>,
    roots: u64,
    base: Front,
    first: u8,
    count: u8,
}

impl Drop for Board {
    /// Drops the fields. A derived drop would be proved anew at each place that lets go of one.
    fn drop(self) {
        let Self {
            log,
            roots: _,
            base,
            first: _,
            count: _,
        } = self;
    }
}

impl Model for Board {
    ghost use Rattle.hd_terms.specs.Schedule.{Board as ScheduledBoard};
    ghost use Rattle.hd_board.specs.BoardInside.{board_of, IsBoard};

    ghost Value = { ScheduledBoard };

    ghost view = { board_of };

    ghost invariant = { IsBoard };
}

/// A board over a dump's graph with `n` desks, from 1 to 16, whose log is empty. Desk i is that of analyst i. The desks
/// share the graph and its strengths.
///
/// # Errors
///
/// Memory ran out.
pub fn open<R: Threads + Sync>(
    rt: &R,
    alloc: Global,
    graph: Arc<Graph>,
    n: u8,
) -> Result<(Board, Vec<Desk>), NoMemory>
    requires least { 1 ≤ n }
    requires most { n ≤ 16 }
    ensures board { IfOk result (λ r. r.0 ≡ opened_board (arc_value graph) n) }
    ensures desks { IfOk result (λ r. r.1.items ≡ opened_desks (arc_value graph) n) }
{
    let roots = u64::from(graph.roots_len());
    let state = State::open(rt, alloc, graph)?;
    let desks = opened_desks(alloc, &state, n)?;
    let board = Board {
        log: Mutex::new(state.front().share()?),
        roots,
        base: state.front().share()?,
        first: 0,
        count: n,
    };
    Ok((board, desks))
}

/// `n` desks, numbered from 0 on, that have come to a state.
fn opened_desks(alloc: Global, state: &State, n: u8) -> Result<Vec<Desk>, NoMemory>
    requires { state.now.log ≡ [] }
    ensures { IfOk result (λ v. v.items ≡ opened_desks state.now.dump n) }
{
    let mut desks = Vec::with_capacity(alloc, usize::from(n))?;
    for who in 0..n {
        desks.push(Desk::begin(who, state.share()?)?)?;
    }
    Ok(desks)
}

impl Board {
    /// Appends an event of an analyst who has seen a log, and answers the log with the event. The lock is taken once.
    ///
    /// # Errors
    ///
    /// Why the event isn't appended, the first reason in the order of [`AppendFault`], decided on the log that was found. The
    /// log is as it was then.
    pub fn append(
        &self,
        rt: &impl Wait,
        alloc: Global,
        seen: &Front,
        event: Event,
    ) -> Result<Front, AppendFault>
        ensures ok { IfOk result (λ answer. (log : List OneEvent) × IsTaken self.now.roots self.now.numbers seen.now log event × (answer ≡ with_event log event)) }
        ensures err { IfErr result (λ fault. (log : List OneEvent) × RefusesAppend self.now.roots self.now.numbers seen.now log event fault) }
    {
        let mut log = self.log.lock(rt);
        append_to(
            alloc, &mut log, self.first, self.count, self.roots, seen, event,
        )
    }

    /// The log, for an analyst who has seen an earlier one. The lock is taken once.
    ///
    /// # Errors
    ///
    /// The log is foreign, and answered; or memory ran out.
    pub fn look(&self, rt: &impl Wait, seen: &Front, who: u8) -> Result<Front, LookFault>
        ensures ok { IfOk result (IsFound self.now.numbers who seen.now) }
        ensures err { IfErr result (RefusesLook self.now.numbers who seen.now) }
    {
        let found = self.log.lock(rt).share()?;
        if is_found(self.first, self.count, who, seen, &found) {
            Ok(found)
        } else {
            Err(LookFault::Foreign(found))
        }
    }

    /// Closes the board with its desks, and answers its log. It takes no memory and waits for nobody.
    ///
    /// # Errors
    ///
    /// The log doesn't fit a desk, or after the base it has an event of a number that isn't the board's; or a desk is missing.
    /// The log is answered.
    pub fn close(self, desks: &[Desk]) -> Result<Front, CloseFault>
        ensures ok { IfOk result (λ log. Closes self log (map numbered desks.now)) }
        ensures lawful { IfOk result (λ log. IsLawful log) }
        ensures err { IfErr result (RefusesClose self (map numbered desks.now)) }
    {
        let Self {
            log,
            roots: _,
            base,
            first,
            count,
        } = self;
        let log = log.into_inner();
        if !all_find(&log, first, count, desks) || !are_members(&log, base.len(), first, count) {
            return Err(CloseFault::Mismatch(log));
        }
        if !has_all(first, count, desks) {
            return Err(CloseFault::MissingDesk(log));
        }
        Ok(log)
    }

    /// A private board of one desk: it begins at the log of a desk's state, and has that desk's number. The desk and its board
    /// are untouched, and the graph and the strengths are shared.
    ///
    /// # Errors
    ///
    /// Memory ran out.
    pub fn fork(desk: &Desk) -> Result<(Board, Desk), NoMemory>
        ensures board { IfOk result (λ r. r.0 ≡ forked_board desk.now) }
        ensures desk { IfOk result (λ r. r.1 ≡ forked_desk desk.now) }
    {
        let log = desk.front();
        let board = Board {
            log: Mutex::new(log.share()?),
            roots: u64::from(desk.graph().roots_len()),
            base: log.share()?,
            first: desk.who(),
            count: 1,
        };
        let desk = Desk::begin(desk.who(), desk.state().share()?)?;
        Ok((board, desk))
    }
}
