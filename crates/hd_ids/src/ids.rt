//! Numbering IDs: the number of an ID is its index in the order in which IDs are first met.
ghost use Rattle.std.specs.Prelude.{◌≡◌, nat_eq, ◌<◌, ◌^◌, ◌==◌, ℕ, [], ◌++◌, length, not, position, false, true, Some, slice_index, IfOk, OnOk, OnErr, MatchOption};
ghost use Rattle.std.specs.List.{IsDistinct};
ghost use Rattle.hd_ids.specs.Following.{Follows};
ghost use Rattle.hd_ids.specs.Index.{ids_of};
ghost use Rattle.hd_ids.specs.Noted.{are_apart, is_noted, noted};

use crate::finder::{Finder, FoundBy};
use crate::paged::{Following, PagedIds};
use crate::plain::PlainIds;
use std::alloc::{AllocError, Global};
use std::marker::Model;

/// How the IDs are found.
#[derive(Drop)]
enum Index {
    Paged(PagedIds),
    Plain(PlainIds),
}

/// IDs of objects, each once, in the order in which they were first noted. The number of an object is the index of its ID.
///
/// IDs of objects that lie close are found by pages of the heap. Where the pages have few objects, or there are 2^31 IDs or
/// 2^32 places in the rows, all go over to one index. No answer shows by which they are found, nor the secret of the hashes.
pub struct ObjectIds {
    index: Index,
}

impl Drop for ObjectIds {
    /// Drops the fields. A derived drop would be proved anew at each place that lets go of one.
    fn drop(self) {
        let Self { index } = self;
    }
}

impl Model for ObjectIds {
    ghost use Rattle.std.specs.Prelude.{ℕ, List};
    ghost use Rattle.hd_ids.specs.Index.{ids_of};

    ghost Value = { List ℕ };

    ghost view = { λ a. ids_of a.index };
}

/// The IDs of `front`, and those of `back` behind them, as far as rows serve for all.
fn by_rows(front: PagedIds, back: &ObjectIds) -> Result<Following, AllocError>
    ensures { IfOk result (Follows front back.now) }
{
    match &back.index {
        Index::Paged(back) => front.followed_by(back),
        Index::Plain(_) => Ok(Following::Unserved(front)),
    }
}

/// The IDs of `front`, and those of `back` noted behind them one after another; `None` if an ID is in both.
fn noted_behind(front: Index, back: &ObjectIds) -> Result<Option<ObjectIds>, AllocError>
    ensures { IfOk result (λ joined. MatchOption joined (are_apart (ids_of front) back.now ≡ false) (λ ids. (are_apart (ids_of front) back.now ≡ true) × (ids ≡ ids_of front ++ back.now))) }
{
    let mut ids = ObjectIds { index: front };
    if ids.note_all(back)? {
        return Ok(Some(ids));
    }
    Ok(None)
}

impl ObjectIds {
    /// No IDs yet, with room for `room` of them. The secret is a random number that who makes a dump can't know: without it,
    /// IDs can be made that are slow to find. No answer depends on it.
    pub fn with_capacity(alloc: Global, room: usize, secret: u64) -> Result<ObjectIds, AllocError>
        ensures { IfOk result (λ ids. ids ≡ []) }
    {
        let paged = PagedIds::with_capacity(alloc, room, secret)?;
        Ok(ObjectIds {
            index: Index::Paged(paged),
        })
    }

    /// How many IDs there are, fewer than 2^60. No two are alike.
    pub fn len(&self) -> usize
        ensures len { result ≡ length self.now }
        ensures few { result < 2 ^ 60 }
        ensures distinct { IsDistinct nat_eq self.now }
    {
        match &self.index {
            Index::Paged(paged) => paged.len(),
            Index::Plain(plain) => plain.len(),
        }
    }

    /// Whether there is none.
    pub fn is_empty(&self) -> bool
        ensures { result ≡ (length self.now == 0) }
    {
        self.len() == 0
    }

    /// The ID of a number.
    #[inline(always)]
    pub fn get(&self, number: usize) -> u64
        requires { number < length self.now }
        ensures { result ≡ slice_index self.now number }
    {
        match &self.index {
            Index::Paged(paged) => paged.get(number),
            Index::Plain(plain) => plain.get(number),
        }
    }

    /// The number of an ID, if it was noted.
    pub fn index_of(&self, id: u64) -> Option<usize>
        ensures first { result ≡ position (λ x. id == x) self.now }
        ensures distinct { (o : ℕ) → o < length self.now → slice_index self.now o ≡ id → result ≡ Some o }
    {
        match &self.index {
            Index::Paged(paged) => paged.index_of(id),
            Index::Plain(plain) => plain.index_of(id),
        }
    }

    /// What finds the numbers of these IDs, one after another.
    pub fn finder(&self) -> Finder<'_>
        ensures { result ≡ self.now }
    {
        let by = match &self.index {
            Index::Paged(paged) => FoundBy::Pages(paged.near()),
            Index::Plain(plain) => FoundBy::Plain(plain),
        };
        Finder { by }
    }

    /// Notes an ID, and answers whether it is new. Out of memory, nothing is noted.
    #[inline(always)]
    pub fn note(&mut self, id: u64) -> Result<bool, AllocError>
        ensures noted { OnOk result (self.new ≡ noted self.old id) }
        ensures is_new { IfOk result (λ new. new ≡ not (is_noted self.old id)) }
        ensures err { OnErr result (self.new ≡ self.old) }
    {
        let noted = match &mut self.index {
            Index::Plain(plain) => return plain.note(id),
            Index::Paged(paged) => paged.note(id)?,
        };
        match noted {
            Some(new) => Ok(new),
            None => self.note_in_plain(id),
        }
    }

    /// Notes an ID that the pages have no room for: all go over to one index. This is a function of its own, since a function
    /// zeroes what it has room for at its beginning, and `note` runs for each object.
    fn note_in_plain(&mut self, id: u64) -> Result<bool, AllocError>
        ensures noted { OnOk result (self.new ≡ noted self.old id) }
        ensures is_new { IfOk result (λ new. new ≡ not (is_noted self.old id)) }
        ensures err { OnErr result (self.new ≡ self.old) }
    {
        let (plain, new) = match &mut self.index {
            Index::Plain(plain) => return plain.note(id),
            Index::Paged(paged) => paged.to_plain_with(id)?,
        };
        self.index = Index::Plain(plain);
        Ok(new)
    }

    /// Notes the IDs of `back` one after another, and answers whether all are new. Where one isn't, no further one is noted.
    fn note_all(&mut self, back: &ObjectIds) -> Result<bool, AllocError>
        ensures apart { IfOk result (λ apart. apart ≡ are_apart self.old back.now) }
        ensures all { IfOk result (λ apart. apart ≡ true → self.new ≡ self.old ++ back.now) }
    {
        for number in 0..back.len() {
            if !self.note(back.get(number))? {
                return Ok(false);
            }
        }
        Ok(true)
    }

    /// These IDs, and those of `back` behind them; `None` if an ID is in both.
    ///
    /// # Errors
    ///
    /// Out of memory.
    pub fn followed_by(self, back: ObjectIds) -> Result<Option<ObjectIds>, AllocError>
        ensures { IfOk result (λ joined. MatchOption joined (are_apart self back ≡ false) (λ ids. (are_apart self back ≡ true) × (ids ≡ self ++ back))) }
    {
        if self.is_empty() {
            return Ok(Some(back));
        }
        let Self { index } = self;
        let front = match index {
            Index::Paged(front) => front,
            Index::Plain(front) => return noted_behind(Index::Plain(front), &back),
        };
        match by_rows(front, &back)? {
            Following::Ids(ids) => Ok(Some(ObjectIds {
                index: Index::Paged(ids),
            })),
            Following::Repeated => Ok(None),
            Following::Unserved(front) => noted_behind(Index::Paged(front), &back),
        }
    }

    /// The same IDs, once all are noted: a directory of their pages is made, by which each is found quicker.
    pub fn indexed(mut self) -> ObjectIds
        ensures { result ≡ self }
    {
        match &mut self.index {
            Index::Paged(paged) => paged.index_rows(),
            Index::Plain(_) => {}
        }
        self
    }
}
