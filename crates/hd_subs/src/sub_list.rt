//! The sub-records of a whole dump, for a thread that goes over them.
ghost use Rattle.std.specs.Prelude.{◌≡◌, ◌<◌, length, slice_get, Some};
ghost use Rattle.hd_subs.specs.Views.{sub_view};

use crate::sub::Sub;
use crate::subs::Subs;
use std::marker::Model;

/// The sub-records of a dump in file order, as a `DumpSubs` keeps them.
///
/// A thread that goes over all of them takes one for itself. What it reads with each sub-record then lies in its own memory, and
/// not beside what another thread writes: where two threads use one line of the cache so, each waits for the other.
#[derive(Drop)]
pub struct SubList<'a> {
    pub(crate) parts: &'a [Subs<'a>],
}

impl<'a> Model for SubList<'a> {
    ghost use Rattle.std.specs.Prelude.{List};
    ghost use Rattle.hd_terms.specs.SubRecords.{Sub};
    ghost use Rattle.hd_subs.specs.Joined.{joined};

    ghost Value = { List Sub };

    ghost view = { λ l. joined l.parts.now };
}

impl<'a> SubList<'a> {
    /// The part that has one of them, and its index there. They are numbered from 0 through all parts.
    #[inline(always)]
    fn place(&self, i: usize) -> (&'a Subs<'a>, usize)
        requires { i < length self.now }
        ensures within { result.1 < length result.0.now }
        ensures same { slice_get result.0.now result.1 ≡ slice_get self.now i }
    {
        let mut index = i;
        for part in self.parts {
            if index < part.len() {
                return (part, index);
            }
            index -= part.len();
        }
        unreachable!()
    }

    /// One of them; they are numbered from 0 through all parts.
    #[inline(always)]
    pub fn get(&self, i: usize) -> Sub<'a>
        requires { i < length self.now }
        ensures { slice_get self.now i ≡ Some (sub_view result) }
    {
        let (part, index) = self.place(i);
        part.get(index)
    }
}
