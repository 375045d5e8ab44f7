//! What all connections share.
use crate::seat::Seat;
use crate::table::{Place, Table};
use hd_board::{Board, Desk};
use hd_routes::Pass;
use hd_terms::NoMemory;
use std::alloc::Global;
use std::sync::atomic::{AtomicBool, AtomicUsize, Ordering};
use std::sync::{Mutex, Wait};

/// Where the page is served.
#[derive(Clone, Copy, Debug)]
pub struct Site<'a> {
    /// The port of 127.0.0.1 that is listened on, as clients name it.
    pub port: u16,
    /// The bytes of the page.
    pub page: &'a [u8],
}

/// How many connections there may be at a time beyond one for each desk.
const MORE_CONNECTIONS: usize = 64;

/// What all connections share: the page, the table of desks behind its lock, how many connections there are, and whether all
/// sessions have ended. The lock is held for one look at the table, never while a command runs.
pub(crate) struct Hall<'a> {
    site: Site<'a>,
    table: Mutex<Table<Seat<'a>, Desk>>,
    most: usize,
    connections: AtomicUsize,
    is_over: AtomicBool,
}

impl Drop for Hall<'_> {
    /// Drops the fields. A derived drop would be proved anew at each place that lets go of one.
    fn drop(self) {
        let Self {
            site: _,
            table,
            most: _,
            connections: _,
            is_over: _,
        } = self;
    }
}

/// A free place for each desk of a board, in their order.
fn free_places<'a>(
    alloc: Global,
    board: &'a Board,
    desks: Vec<Desk>,
) -> Result<Vec<Place<Seat<'a>, Desk>>, NoMemory> {
    let mut places = Vec::with_capacity(alloc, desks.len())?;
    for desk in desks {
        let seat = Seat::begin(alloc, board, desk)?;
        places.push(Place::Free(seat))?;
    }
    Ok(places)
}

impl<'a> Hall<'a> {
    /// The hall of a board's desks, each of them free.
    ///
    /// # Errors
    ///
    /// Memory ran out.
    pub(crate) fn open(
        alloc: Global,
        site: Site<'a>,
        board: &'a Board,
        desks: Vec<Desk>,
    ) -> Result<Hall<'a>, NoMemory> {
        let most = desks.len().saturating_add(MORE_CONNECTIONS);
        let places = free_places(alloc, board, desks)?;
        Ok(Hall {
            site,
            table: Mutex::new(Table::new(places)),
            most,
            connections: AtomicUsize::new(0),
            is_over: AtomicBool::new(false),
        })
    }

    /// Where the page is served.
    pub(crate) fn site(&self) -> Site<'a> {
        self.site
    }

    /// Counts one more connection, if there may be one.
    pub(crate) fn enter(&self) -> bool {
        if self.connections.load(Ordering::SeqCst) >= self.most {
            return false;
        }
        self.connections.fetch_add(1, Ordering::SeqCst);
        true
    }

    /// Counts one connection less.
    pub(crate) fn leave(&self) {
        self.connections.fetch_sub(1, Ordering::SeqCst);
    }

    /// Whether all sessions have ended.
    pub(crate) fn is_over(&self) -> bool {
        self.is_over.load(Ordering::SeqCst)
    }

    /// The flag that says whether all sessions have ended.
    pub(crate) fn over_flag(&self) -> &AtomicBool {
        &self.is_over
    }

    /// Takes the free seat of least number, with its number, or `None` where no seat is free.
    pub(crate) fn take(&self, rt: &impl Wait, pass: &Pass) -> Option<(usize, Seat<'a>)> {
        self.table.lock(rt).take(pass)
    }

    /// Gives a seat back, for whoever takes it next.
    pub(crate) fn give_back(&self, rt: &impl Wait, number: usize, seat: Seat<'a>) {
        self.table.lock(rt).give_back(number, seat);
    }

    /// Ends the session of a number for good, with its desk. Answers whether all sessions have ended.
    pub(crate) fn end(&self, rt: &impl Wait, number: usize, desk: Desk) -> bool {
        let has_ended = {
            let mut table = self.table.lock(rt);
            table.end(number, desk);
            table.has_ended()
        };
        if has_ended {
            self.is_over.store(true, Ordering::SeqCst);
        }
        has_ended
    }

    /// The desks of the sessions, in their order, once no connection is left.
    ///
    /// # Errors
    ///
    /// Memory ran out.
    pub(crate) fn close(self, alloc: Global) -> Result<Vec<Desk>, NoMemory> {
        let Self {
            site: _,
            table,
            most: _,
            connections: _,
            is_over: _,
        } = self;
        let places = table.into_inner().into_places();
        let mut desks = Vec::with_capacity(alloc, places.len())?;
        for place in places {
            match place {
                Place::Left(desk) => desks.push(desk)?,
                Place::Free(seat) => desks.push(seat.leave())?,
                Place::Taken => {}
            }
        }
        Ok(desks)
    }
}
