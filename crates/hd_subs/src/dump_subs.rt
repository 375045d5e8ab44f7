//! The sub-records of a whole dump.
ghost use Rattle.std.specs.Prelude.{◌≡◌, ◌↔◌, ◌+◌, ◌-◌, ◌^◌, ◌<◌, ◌≤◌, [], ◌++◌, length, drop, slice_get, IsTrue, Some, OnOk, OnErr};
ghost use Rattle.std.specs.List.{filter_map};
ghost use Rattle.hd_subs.specs.Views.{sub_view};
ghost use Rattle.hd_subs.specs.ClassSubs.{class_of_sub, IsClassAt};

use crate::sub::Sub;
use crate::sub_list::SubList;
use crate::subs::Subs;
use std::alloc::{AllocError, Global};
use std::marker::Model;

/// The sub-records of a dump in file order, in parts that stay the lists they were read into.
#[derive(Drop)]
pub struct DumpSubs<'a> {
    parts: Vec<Subs<'a>>,
    len: usize,
}

impl<'a> Model for DumpSubs<'a> {
    ghost use Rattle.std.specs.Prelude.{◌≡◌, List, length};
    ghost use Rattle.hd_terms.specs.SubRecords.{Sub};
    ghost use Rattle.hd_subs.specs.Joined.{joined};

    ghost Value = { List Sub };

    ghost view = { λ d. joined d.parts.items };

    ghost invariant = { λ d. d.len ≡ length (joined d.parts.items) };
}

impl<'a> DumpSubs<'a> {
    /// No sub-records yet.
    pub fn new(alloc: Global) -> DumpSubs<'a>
        ensures { result ≡ [] }
    {
        DumpSubs {
            parts: Vec::new(alloc),
            len: 0,
        }
    }

    /// Puts a part at the end.
    ///
    /// # Errors
    ///
    /// Out of memory; then the part is given up.
    pub fn push(&mut self, part: Subs<'a>) -> Result<(), AllocError>
        requires { length self.old + length part < 2 ^ 64 }
        ensures ok { OnOk result (self.new ≡ self.old ++ part.entry) }
        ensures err { OnErr result (self.new ≡ self.old) }
    {
        self.parts.reserve(1)?;
        self.len += part.len();
        self.parts.push_reserved(part);
        Ok(())
    }

    /// How many there are.
    pub fn len(&self) -> usize
        ensures { result ≡ length self.now }
    {
        self.len
    }

    /// Whether there is none.
    pub fn is_empty(&self) -> bool
        ensures { IsTrue result ↔ (self.now ≡ []) }
    {
        self.len == 0
    }

    /// The same sub-records, for a thread that goes over all of them.
    pub fn as_list(&self) -> SubList<'_>
        ensures { result ≡ self.now }
    {
        SubList {
            parts: self.parts.as_slice(),
        }
    }

    /// One of them; they are numbered from 0 through all parts.
    #[inline(always)]
    pub fn get(&self, i: usize) -> Sub<'_>
        requires { i < length self.now }
        ensures { slice_get self.now i ≡ Some (sub_view result) }
    {
        self.as_list().get(i)
    }

    /// How many there are up to and with the last class, or 0 where none is a class.
    ///
    /// The file isn't read for it, and of a part into which no class was read no sub-record is looked at.
    pub fn classes_end(&self) -> usize
        ensures within { result ≤ length self.now }
        ensures last { 0 < result → IsClassAt self.now (result - 1) }
        ensures none_after { filter_map class_of_sub (drop result self.now) ≡ [] }
    {
        let mut start = self.len;
        let mut left = self.parts.len();
        while left > 0 {
            left -= 1;
            let part = &self.parts[left];
            start -= part.len();
            let end = part.classes_end();
            if end > 0 {
                return start + end;
            }
        }
        0
    }
}
