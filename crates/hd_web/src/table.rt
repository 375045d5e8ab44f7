//! The table of the desks that browsers take.
ghost use Rattle.std.specs.Prelude.{◌≡◌, MatchOption, slice_set};
ghost use Rattle.std.specs.List.{list_all};
ghost use Rattle.hd_web.specs.Tables.{IsFree, is_left, Takes, TakesNone};

use hd_routes::Pass;
use std::mem;

/// A place at the table: the seat of one desk.
#[derive(Drop)]
pub(crate) enum Place<S, D> {
    /// Nobody has the desk, and whoever takes it goes on with this session.
    Free(S),
    /// A connection has the seat.
    Taken,
    /// The session has ended.
    Left(D),
}

/// The places of all desks, by their numbers.
#[derive(Drop)]
pub(crate) struct Table<S, D> {
    places: Vec<Place<S, D>>,
}

impl<S: Drop, D: Drop> Place<S, D> {
    /// Takes the seat, if it is free.
    fn take(&mut self) -> Option<S>
        ensures { MatchOption result ((self.new ≡ self.old) × ¬ (IsFree self.old)) (λ seat. (self.old ≡ Place.Free seat) × (self.new ≡ Place.Taken)) }
    {
        match mem::replace(self, Place::Taken) {
            Place::Free(seat) => Some(seat),
            Place::Taken => None,
            Place::Left(desk) => {
                *self = Place::Left(desk);
                None
            }
        }
    }

    /// Whether the session has ended.
    fn is_left(&self) -> bool
        ensures { result ≡ is_left self.now }
    {
        matches!(self, Place::Left(_))
    }
}

impl<S: Drop, D: Drop> Table<S, D> {
    /// A table of these places.
    pub(crate) fn new(places: Vec<Place<S, D>>) -> Table<S, D>
        ensures { result.places ≡ places }
    {
        Table { places }
    }

    /// Takes the free seat of least number, with its number, or `None` where no seat is free. Only a pass gives leave to.
    pub(crate) fn take(&mut self, _pass: &Pass) -> Option<(usize, S)>
        ensures { MatchOption result (TakesNone self.old.places.items self.new.places.items)
            (λ taken. Takes self.old.places.items self.new.places.items taken.0 taken.1) }
    {
        for number in 0..self.places.len() {
            match self.places[number].take() {
                Some(seat) => return Some((number, seat)),
                None => {}
            }
        }
        None
    }

    /// Puts something at the place of this number.
    fn put(&mut self, number: usize, place: Place<S, D>)
        ensures { self.new.places.items ≡ slice_set self.old.places.items number place }
    {
        if number < self.places.len() {
            self.places[number] = place;
        }
    }

    /// Gives a seat back, for whoever takes it next.
    pub(crate) fn give_back(&mut self, number: usize, seat: S)
        ensures { self.new.places.items ≡ slice_set self.old.places.items number (Place.Free seat) }
    {
        self.put(number, Place::Free(seat));
    }

    /// Ends the session of a number for good, with its desk.
    pub(crate) fn end(&mut self, number: usize, desk: D)
        ensures { self.new.places.items ≡ slice_set self.old.places.items number (Place.Left desk) }
    {
        self.put(number, Place::Left(desk));
    }

    /// Whether all sessions have ended.
    pub(crate) fn has_ended(&self) -> bool
        ensures { result ≡ list_all is_left self.now.places.items }
    {
        self.places.iter().all(|place| place.is_left())
    }

    /// The places.
    pub(crate) fn into_places(self) -> Vec<Place<S, D>>
        ensures { result ≡ self.places }
    {
        let Self { places } = self;
        places
    }
}
