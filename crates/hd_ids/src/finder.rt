//! Finding IDs, one after another.
ghost use Rattle.std.specs.Prelude.{◌≡◌, ◌==◌, ℕ, position};

use crate::near::NearIds;
use crate::plain::PlainIds;
use std::marker::Model;

/// How the IDs are found.
#[derive(Drop)]
pub(crate) enum FoundBy<'a> {
    Pages(NearIds<'a>),
    Plain(&'a PlainIds),
}

/// Finds the numbers of IDs, one after another. An ID that lies near one that was asked for is found quicker; no answer depends
/// on that.
#[derive(Drop)]
pub struct Finder<'a> {
    pub(crate) by: FoundBy<'a>,
}

impl<'a> Model for Finder<'a> {
    ghost use Rattle.std.specs.Prelude.{ℕ, List};
    ghost use Rattle.hd_ids.specs.FoundBy.{ids_found};

    ghost Value = { List ℕ };

    ghost view = { λ a. ids_found a.by };
}

impl<'a> Finder<'a> {
    /// The number of an ID, if it was noted.
    #[inline(always)]
    pub fn index_of(&mut self, id: u64) -> Option<usize>
        ensures first { result ≡ position (λ x. id == x) self.old }
        ensures same { self.new ≡ self.old }
    {
        match &mut self.by {
            FoundBy::Pages(near) => near.index_of(id),
            FoundBy::Plain(plain) => plain.index_of(id),
        }
    }
}
